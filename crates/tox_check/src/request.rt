//! What `toxi check` is asked, and its answer.
ghost use Rattle.std.specs.Prelude.{◌≡◌, false, OnOk, IfErr};

use crate::check::print_check;
use crate::fault::CheckFault;
use std::alloc::Global;
use tox_runs::{NamedFiles, read_setup};
use tox_text::PrintPickFault;
use tox_time::Sink;

/// A question: what has no effect of the script of these files?
#[derive(Clone, Copy, Debug)]
pub struct CheckRequest<'a> {
    /// The name of the populate file.
    pub config: &'a str,
    /// The name of the script file.
    pub script: &'a str,
    /// Whether a warning is a fault.
    pub strict: bool,
    /// Whether a last line tells how many proxies, rules and toxics there are.
    pub verbose: bool,
}

impl<'a> CheckRequest<'a> {
    ghost use Rattle.tox_check.specs.Checking.{AnswersWell, HasCheckCause};

    /// Writes the answer: a line for each warning.
    ///
    /// The populate file is read first, and then the script: the first fault is returned, and nothing is written. A prefix of the
    /// text is written after a later fault, and all of it where warnings are the fault.
    pub fn answer<F: NamedFiles, W: Sink>(
        &self,
        files: &F,
        alloc: Global,
        writer: &mut W,
    ) -> Result<(), CheckFault<'a>>
        requires { W.failed writer.old ≡ false }
        ensures ok { OnOk result
            (AnswersWell (F.known files.now) self.now (W.written writer.old)
            (W.written writer.new)) }
        ensures fault { IfErr result
            (HasCheckCause (F.known files.now) self.now (W.written writer.old)
            (W.written writer.new) (W.failed writer.new)) }
    {
        let setup = read_setup(files, alloc, self.config, self.script)?;
        match print_check(alloc, writer, &setup, self.verbose) {
            Err(PrintPickFault::OutOfMemory) => Err(CheckFault::OutOfMemory),
            Err(PrintPickFault::WriteFault) => Err(CheckFault::WriteFault),
            Ok(warned) if self.strict && warned != 0 => Err(CheckFault::Warned(warned)),
            Ok(_) => Ok(()),
        }
    }
}
