//! A migrated script, on its way to a writer.
ghost use Rattle.std.specs.Prelude.{◌≡◌, ◌≢◌, false, IsTrue, OnOk, IfErr, Err};
ghost use Rattle.std.specs.Str.{is_utf8};
ghost use Rattle.tox_script.specs.declared.fault.ScriptFault.TheVariants.{OutOfMemory};
ghost use Rattle.tox_text.specs.PrintingMigrated.{LeavesMigrated, WritesMigrated};

use crate::printer::write_all;
use std::alloc::Global;
use thiserror::Error;
use tox_script::{ScriptFault, migrate};
use tox_time::Sink;

/// Why a migrated script was not printed.
#[derive(Clone, Copy, Debug, PartialEq, Eq, Error)]
pub enum PrintMigratedFault {
    /// The script is refused.
    #[error("{0}")]
    Script(ScriptFault),
    /// A write failed, or took nothing.
    #[error("L4 WriteFault")]
    WriteFault,
}

/// Writes a script of version 1 as a script of version 2 that gives each connection the same chains and names.
///
/// Nothing is written after [`PrintMigratedFault::Script`], and a prefix of the text after
/// [`PrintMigratedFault::WriteFault`].
pub fn print_migrated<W: Sink>(
    alloc: Global,
    writer: &mut W,
    script: &[u8],
) -> Result<(), PrintMigratedFault>
    requires { W.failed writer.old ≡ false }
    ensures ok { OnOk result
        (WritesMigrated script.now (W.written writer.old) (W.written writer.new)) }
    ensures left { IfErr result
        (LeavesMigrated script.now (W.written writer.old) (W.written writer.new)
        (W.failed writer.new)) }
    ensures working { result ≢ Err PrintMigratedFault.WriteFault → W.failed writer.new ≡ false }
    // What is no text is refused before memory is asked for.
    ensures memory { result ≡ Err (PrintMigratedFault.Script OutOfMemory)
        → IsTrue (is_utf8 script.now) }
{
    match migrate(alloc, script) {
        Ok(text) => match write_all(writer, text.as_bytes()) {
            Ok(()) => Ok(()),
            Err(_) => Err(PrintMigratedFault::WriteFault),
        },
        Err(fault) => Err(PrintMigratedFault::Script(fault)),
    }
}
