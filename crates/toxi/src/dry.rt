//! `toxi dry`: arrivals on standard input, the result on standard output.
use crate::explaining::Explaining;
use crate::kept_input::KeptInput;
use crate::link::{link_status, read_link};
use std::io;
use std::process::ExitCode;
use tox_arguments::LinkArguments;
use tox_explain::Failure;
use tox_proxy::dry_run;
use tox_time::Real;

/// Runs the link, and returns the status of the program.
#[inline(never)]
pub fn dry<R: Input + Print + Eprint + AllocGlobal>(
    rt: &R,
    explaining: Explaining,
    link: &LinkArguments<'_>,
) -> ExitCode {
    let mut input = KeptInput::new(rt.alloc(), explaining);
    let done = run(rt, link, &mut input);
    link_status(rt, explaining, link, &input, done)
}

/// Reads the link, and then the input.
fn run<R: Input + Print + AllocGlobal>(
    rt: &R,
    link: &LinkArguments<'_>,
    input: &mut KeptInput,
) -> Result<(), Failure<'static>> {
    let link = read_link(rt.alloc(), link)?;
    let mut reader = Real::new(input.reader(rt.reader()));
    let mut writer = Real::new(io::writer(rt));
    match dry_run(
        rt.alloc(),
        &mut reader,
        &mut writer,
        &link.chain,
        &link.words,
    ) {
        Ok(()) => Ok(()),
        Err(fault) => Err(Failure::Dry(fault)),
    }
}
