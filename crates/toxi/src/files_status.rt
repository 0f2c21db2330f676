//! The status of a command that reads a populate file and a script file.
use crate::explaining::Explaining;
use crate::kept_files::FilesRead;
use std::process::ExitCode;
use tox_explain::{Failure, Inputs};

/// The names of the files, and the stream that was asked for.
#[derive(Clone, Copy)]
pub struct FileNames<'a> {
    pub config: &'a str,
    pub script: &'a str,
    pub stream: Option<&'a str>,
}

/// Tells why a command failed that was given these files.
pub fn fail_files<'x, R: Eprint + AllocGlobal>(
    rt: &R,
    explaining: Explaining,
    names: &FileNames<'x>,
    files: &'x FilesRead,
    failure: Failure<'_>,
) -> ExitCode {
    let inputs = Inputs {
        stream: names.stream,
        config: files.named(names.config),
        script: files.named(names.script),
        ..Inputs::none()
    };
    explaining.fail(rt, &failure.because(files.refusal), &inputs)
}
