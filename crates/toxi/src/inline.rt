//! One proxy and its toxics on the command line of `toxi serve`: what they set up, and the files that mean the same.
use crate::explaining::Explaining;
use crate::fail;
use crate::folder::make_folder;
use std::alloc::{AllocError, Global};
use std::fs::OpenOptions;
use std::io;
use std::io::Write;
use std::process::ExitCode;
use std::rt::Files;
use tox_arguments::InlineArguments;
use tox_explain::{Failure, FolderRefusal, Inputs};
use tox_proxy::{InlineSetup, InlineToxic, inline_setup};

/// The populate file.
const POPULATE: &str = "proxies.json";

/// The script.
const SCRIPT: &str = "script.toml";

/// Writes the files that mean the same as the arguments into a folder, which is made or is empty. Returns the status of the
/// program.
#[inline(never)]
pub fn print_files<R: Files + Eprint + AllocGlobal + Copy>(
    rt: &R,
    explaining: Explaining,
    arguments: &InlineArguments<'_>,
    folder: &str,
) -> ExitCode {
    match write_files(rt, arguments, folder) {
        Ok(()) => ExitCode::SUCCESS,
        Err(failure) => fail_inline(rt, explaining, arguments, &failure),
    }
}

/// Tells why one proxy and its toxics on the command line failed.
pub fn fail_inline<R: Eprint + AllocGlobal>(
    rt: &R,
    explaining: Explaining,
    arguments: &InlineArguments<'_>,
    failure: &Failure<'_>,
) -> ExitCode {
    match forms_of(rt.alloc(), &arguments.toxics) {
        Ok(toxics) => explaining.fail(rt, failure, &inputs_of(arguments, &toxics)),
        Err(_) => fail(rt, failure),
    }
}

/// What an explanation reads of the command line.
fn inputs_of<'x>(arguments: &'x InlineArguments<'x>, toxics: &'x [&'x str]) -> Inputs<'x> {
    Inputs {
        toxics,
        listen: Some(arguments.listen),
        upstream: Some(arguments.upstream),
        ..Inputs::none()
    }
}

/// The short forms of toxics, in the order typed.
fn forms_of<'a>(alloc: Global, toxics: &[InlineToxic<'a>]) -> Result<Vec<&'a str>, AllocError> {
    let mut forms = Vec::new(alloc);
    for toxic in toxics {
        forms.push(toxic.short)?;
    }
    Ok(forms)
}

fn write_files<'a, R: Files + AllocGlobal + Copy>(
    rt: &R,
    arguments: &InlineArguments<'_>,
    folder: &'a str,
) -> Result<(), Failure<'a>> {
    let made = match inline_setup(rt.alloc(), &arguments.inline()) {
        Ok(made) => made,
        Err(fault) => return Err(Failure::from(fault)),
    };
    match fill_folder(rt, folder, &made) {
        Ok(()) => Ok(()),
        Err(refusal) => Err(Failure::FilesRefused(folder, refusal)),
    }
}

/// Makes the folder, and writes the files of a setup into it.
fn fill_folder<R: Files + AllocGlobal + Copy>(
    rt: &R,
    folder: &str,
    made: &InlineSetup,
) -> Result<(), FolderRefusal> {
    make_folder(rt, folder)?;
    write_file(rt, folder, POPULATE, made.populate.bytes())?;
    write_file(rt, folder, SCRIPT, made.script.bytes())?;
    Ok(())
}

/// Writes a new file of a folder.
fn write_file<R: Files + AllocGlobal>(
    rt: &R,
    folder: &str,
    name: &str,
    bytes: &[u8],
) -> io::Result<()> {
    let path = format!(in rt.alloc(); "{folder}/{name}")?;
    let mut options = OpenOptions::new();
    options.write(true);
    options.create_new(true);
    let mut file = options.open(rt, path.as_str())?;
    file.write_all(bytes)
}
