//! What stands below a fault's line on standard error.
use crate::fail;
use std::fs::Metadata;
use std::os::unix::fs::MetadataExt;
use std::process::ExitCode;
use std::rt::{Env, Files};
use std::{env, fs};
use tox_explain::{Failure, Inputs, explain, near_name};
use tox_proxy::VisibleName;

/// The variable of the environment that asks for explanations by `1`, and refuses them by `0`.
const VARIABLE: &str = "TOXI_EXPLAIN";

/// The variable in which systemd tells the device and the inode of the socket to its journal. A child inherits it, also one whose standard error goes
/// elsewhere.
const JOURNAL: &str = "JOURNAL_STREAM";

/// Standard error, as a file.
const ERRORS: &str = "/proc/self/fd/2";

/// How much is reported below a fault's line.
#[derive(Clone, Copy, PartialEq, Eq)]
pub enum Explaining {
    /// Nothing.
    Nothing,
    /// The nearest name, where one isn't known.
    NearName,
    /// Where the fault is, what is there, what is accepted, and what to write.
    Whole,
}

impl Explaining {
    /// What the command line asks for, or else the environment. Without these a fault is explained on a terminal, and in the journal, where nobody
    /// can ask again.
    pub fn of<R: Env + Files + AllocGlobal>(
        rt: &R,
        reported: bool,
        on_terminal: bool,
    ) -> Explaining {
        let is_explained = match is_asked_by_environment(rt) {
            _ if reported => true,
            Some(asked) => asked,
            None => on_terminal || goes_to_journal(rt),
        };
        if is_explained {
            Explaining::Whole
        } else {
            Explaining::Nothing
        }
    }

    /// The same, or the nearest name where nothing would be reported and `--verbose` is given.
    pub fn with_verbose(self, verbose: bool) -> Explaining {
        match self {
            Explaining::Nothing if verbose => Explaining::NearName,
            other => other,
        }
    }

    /// Whether what a command reads is needed below a fault's line.
    pub fn needs_inputs(self) -> bool {
        self != Explaining::Nothing
    }

    /// Prints the lines below a fault's. What can't be printed is left out: the fault itself was reported.
    fn explain<R: Eprint + AllocGlobal>(self, rt: &R, failure: &Failure<'_>, inputs: &Inputs<'_>) {
        match self {
            Explaining::Nothing => {}
            Explaining::NearName => print_near_name(rt, failure, inputs),
            Explaining::Whole => print_explanation(rt, failure, inputs),
        }
    }

    /// Tells why a command failed, and explains it by what it was given. Returns the status of the program.
    pub fn fail<R: Eprint + AllocGlobal>(
        self,
        rt: &R,
        failure: &Failure<'_>,
        inputs: &Inputs<'_>,
    ) -> ExitCode {
        let status = fail(rt, failure);
        self.explain(rt, failure, inputs);
        status
    }
}

fn is_asked_by_environment<R: Env + AllocGlobal>(rt: &R) -> Option<bool> {
    match env::var(rt, VARIABLE).ok()?.as_str() {
        "1" => Some(true),
        "0" => Some(false),
        _ => None,
    }
}

/// Whether standard error goes to the journal.
fn goes_to_journal<R: Env + Files + AllocGlobal>(rt: &R) -> bool {
    let Ok(journal) = env::var(rt, JOURNAL) else {
        return false;
    };
    match fs::metadata(rt, ERRORS) {
        Ok(errors) => is_file(journal.as_str(), &errors),
        Err(_) => false,
    }
}

/// Whether a text is the device and the inode of a file, in decimal with a colon between.
fn is_file(text: &str, file: &Metadata) -> bool {
    let Some((device, inode)) = text.split_once(':') else {
        return false;
    };
    device.parse() == Ok(file.dev()) && inode.parse() == Ok(file.ino())
}

/// Prints the nearest name to a type or an attribute that there isn't, if one is near.
fn print_near_name<R: Eprint + AllocGlobal>(rt: &R, failure: &Failure<'_>, inputs: &Inputs<'_>) {
    if let Ok(Some(found)) = near_name(rt.alloc(), failure, inputs) {
        let name = VisibleName(found.name.as_str());
        let near = found.nearest;
        let _ = eprintln!(rt; "toxi: {name}: {near}?");
    }
}

fn print_explanation<R: Eprint + AllocGlobal>(rt: &R, failure: &Failure<'_>, inputs: &Inputs<'_>) {
    if let Ok(text) = explain(rt.alloc(), failure, inputs) {
        let _ = eprint!(rt; "{text}");
    }
}
