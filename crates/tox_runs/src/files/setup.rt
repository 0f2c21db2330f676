//! What a populate file and a script file set up.
ghost use Rattle.std.specs.Prelude.{◌≡◌, IfOk, IfErr};
ghost use Rattle.tox_runs.specs.files.Setup.{HasConfigCause, HasScriptCause, HasSetupCause, IsSetUp, Notes, Populates, Scripts};

use crate::files::FileFault;
use crate::files::named_files::NamedFiles;
use std::alloc::Global;
use thiserror::Error;
use tox_config::{ConfigFault, ProxyDef, Remarks, read_populate, read_remarks};
use tox_script::{Script, ScriptFault, read_script};

/// The proxies of a populate file with what is noted of it, and the script of a script file.
#[derive(Drop)]
pub struct Setup {
    pub proxies: Vec<ProxyDef>,
    pub remarks: Remarks,
    pub script: Script,
}

/// Why there is no setup.
#[derive(Clone, Copy, Debug, PartialEq, Eq, Error)]
pub enum SetupFault<'a> {
    /// The populate file was not read.
    #[error("{0}")]
    ConfigFile(FileFault<'a>),
    /// The populate file is refused.
    #[error("{0}")]
    Config(ConfigFault),
    /// The script file was not read.
    #[error("{0}")]
    ScriptFile(FileFault<'a>),
    /// The script file is refused.
    #[error("{0}")]
    Script(ScriptFault),
}

impl<'a> From<ConfigFault> for SetupFault<'a> {
    ghost use Rattle.tox_runs.specs.declared.files.setup.SetupFault.TheVariants as setup;

    ghost from_gives = { λ cause fault. fault ≡ setup.Config cause };

    fn from(fault: ConfigFault) -> SetupFault<'a> {
        SetupFault::Config(fault)
    }
}

impl<'a> From<ScriptFault> for SetupFault<'a> {
    ghost use Rattle.tox_runs.specs.declared.files.setup.SetupFault.TheVariants as setup;

    ghost from_gives = { λ cause fault. fault ≡ setup.Script cause };

    fn from(fault: ScriptFault) -> SetupFault<'a> {
        SetupFault::Script(fault)
    }
}

/// Reads the populate file of the one name whole, and then the script file of the other.
pub fn read_setup<'a, F: NamedFiles>(
    files: &F,
    alloc: Global,
    config: &'a str,
    script: &'a str,
) -> Result<Setup, SetupFault<'a>>
    ensures ok { IfOk result
        (λ setup. IsSetUp (F.known files.now config.now) (F.known files.now script.now)
        setup.proxies.items setup.script) }
    ensures noted { IfOk result
        (λ setup. Notes (F.known files.now config.now) setup.proxies.items setup.remarks) }
    ensures fault { IfErr result (HasSetupCause (F.known files.now) config.now script.now) }
{
    let (proxies, remarks) = read_proxies(files, alloc, config)?;
    let script = read_rules(files, alloc, script)?;
    Ok(Setup {
        proxies,
        remarks,
        script,
    })
}

/// The proxies of a populate file, and what is noted of it.
fn read_proxies<'a, F: NamedFiles>(
    files: &F,
    alloc: Global,
    name: &'a str,
) -> Result<(Vec<ProxyDef>, Remarks), SetupFault<'a>>
    ensures ok { IfOk result (λ read. Populates (F.known files.now name.now) read.0.items) }
    ensures noted { IfOk result
        (λ read. Notes (F.known files.now name.now) read.0.items read.1) }
    ensures fault { IfErr result (HasConfigCause (F.known files.now name.now) name.now) }
{
    let bytes = files.read(alloc, name).map_err(SetupFault::ConfigFile)?;
    let proxies = read_populate(alloc, &bytes)?;
    let remarks = read_remarks(alloc, &bytes, &proxies)?;
    Ok((proxies, remarks))
}

fn read_rules<'a, F: NamedFiles>(
    files: &F,
    alloc: Global,
    name: &'a str,
) -> Result<Script, SetupFault<'a>>
    ensures ok { IfOk result (Scripts (F.known files.now name.now)) }
    ensures fault { IfErr result (HasScriptCause (F.known files.now name.now) name.now) }
{
    let bytes = files.read(alloc, name).map_err(SetupFault::ScriptFile)?;
    let script = read_script(alloc, &bytes)?;
    Ok(script)
}
