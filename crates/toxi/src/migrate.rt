//! `toxi migrate`: a script of version 1 as one of version 2, on standard output.
use crate::explaining::Explaining;
use crate::files_status::{FileNames, fail_files};
use crate::kept_files::KeptFiles;
use std::io;
use std::process::ExitCode;
use std::rt::Files;
use tox_explain::Failure;
use tox_proxy::{NamedFiles, print_migrated};
use tox_time::Real;

/// Reads the script file and prints the migrated script. Returns the status of the program.
#[inline(never)]
pub fn migrate<R: Files + Print + Eprint + AllocGlobal>(
    rt: &R,
    explaining: Explaining,
    script: &str,
) -> ExitCode {
    let files = KeptFiles::new(rt, rt.alloc(), explaining);
    let Err(fault) = print(rt, &files, script) else {
        return ExitCode::SUCCESS;
    };
    let names = FileNames {
        config: script,
        script,
        stream: None,
    };
    fail_files(rt, explaining, &names, &files.into_read(), fault)
}

fn print<'a, R: Files + Print + AllocGlobal>(
    rt: &R,
    files: &KeptFiles<'_, R>,
    script: &'a str,
) -> Result<(), Failure<'a>> {
    let bytes = match files.read(rt.alloc(), script) {
        Ok(bytes) => bytes,
        Err(fault) => return Err(Failure::from(fault)),
    };
    let mut writer = Real::new(io::writer(rt));
    match print_migrated(rt.alloc(), &mut writer, &bytes) {
        Ok(()) => Ok(()),
        Err(fault) => Err(Failure::from(fault)),
    }
}
