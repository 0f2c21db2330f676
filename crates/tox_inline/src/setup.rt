//! What a command line sets up.
ghost use Rattle.std.specs.Prelude.{◌≡◌, IfOk, IfErr};
ghost use Rattle.tox_inline.specs.Setup.{HasInlineCause, IsInlineSetup};
ghost use Rattle.tox_inline.specs.Texts.{populate_text, script_text};
ghost use Rattle.tox_inline.specs.declared.fault.InlineFault.TheVariants.{OutOfMemory};

use crate::fault::InlineFault;
use crate::populate_text::write_populate;
use crate::script_text::write_script;
use crate::toxics::{InlineToxic, NumberedToxic, read_toxics};
use std::alloc::Global;
use tox_config::{Remarks, read_populate};
use tox_log::LogBytes;
use tox_runs::Setup;
use tox_script::read_script;

/// One proxy and its toxics, as they were typed.
#[derive(Clone, Copy, Debug)]
pub struct Inline<'a> {
    /// Where the proxy listens.
    pub listen: &'a str,
    /// What it connects to.
    pub upstream: &'a str,
    /// The toxics of each connection, in the order typed.
    pub toxics: &'a [InlineToxic<'a>],
}

/// A populate file and a script, and what they set up.
#[derive(Drop)]
pub struct InlineSetup {
    pub populate: LogBytes,
    pub script: LogBytes,
    pub setup: Setup,
}

/// The two files that mean what a command line says, and what they set up: one proxy, `default`, each connection of which meets
/// the toxics. The k-th of a stream is named `up_k` or `down_k`.
///
/// # Errors
///
/// The fault of an address, and then the first of the toxics. Out of memory may stand in its place.
pub fn inline_setup(alloc: Global, inline: &Inline<'_>) -> Result<InlineSetup, InlineFault>
    ensures ok { IfOk result (IsInlineSetup inline.now) }
    ensures fault { IfErr result (HasInlineCause inline.now) }
{
    let populate = populate_file(alloc, inline.listen, inline.upstream)?;
    let proxies = read_populate(alloc, populate.bytes())?;
    let toxics = read_toxics(alloc, inline.toxics)?;
    let script = script_file(alloc, &toxics)?;
    let rules = read_script(alloc, script.bytes())?;
    Ok(InlineSetup {
        populate,
        script,
        setup: Setup {
            proxies,
            remarks: Remarks::none(alloc),
            script: rules,
        },
    })
}

fn populate_file(alloc: Global, listen: &str, upstream: &str) -> Result<LogBytes, InlineFault>
    ensures ok { IfOk result (λ file. file.0 ≡ populate_text listen.now upstream.now) }
    ensures fault { IfErr result (λ fault. fault ≡ OutOfMemory) }
{
    let mut file = LogBytes::new(alloc);
    match write_populate(&mut file, listen, upstream) {
        Ok(()) => Ok(file),
        Err(_) => Err(InlineFault::OutOfMemory),
    }
}

fn script_file(alloc: Global, toxics: &[NumberedToxic]) -> Result<LogBytes, InlineFault>
    ensures ok { IfOk result (λ file. file.0 ≡ script_text toxics.now) }
    ensures fault { IfErr result (λ fault. fault ≡ OutOfMemory) }
{
    let mut file = LogBytes::new(alloc);
    match write_script(&mut file, toxics) {
        Ok(()) => Ok(file),
        Err(_) => Err(InlineFault::OutOfMemory),
    }
}
