//! `toxi stages`: as `toxi dry`, with one thread for each applied toxic.
use crate::explaining::Explaining;
use crate::kept_input::KeptInput;
use crate::link::{link_status, read_link};
use std::io;
use std::process::ExitCode;
use std::sync::Wait;
use std::thread::Threads;
use tox_arguments::LinkArguments;
use tox_explain::Failure;
use tox_proxy::stages_run;
use tox_time::{Cap, OpenGate, Real};

/// Runs the link, and returns the status of the program.
#[inline(never)]
pub fn stages<R: Input + Print + Eprint + AllocGlobal + Threads + Wait + Sync>(
    rt: &R,
    explaining: Explaining,
    cap: &Cap,
    link: &LinkArguments<'_>,
) -> ExitCode {
    let mut input = KeptInput::new(rt.alloc(), explaining);
    let done = run(rt, cap, link, &mut input);
    link_status(rt, explaining, link, &input, done)
}

/// Reads the link, and then the input.
fn run<R: Input + Print + AllocGlobal + Threads + Wait + Sync>(
    rt: &R,
    cap: &Cap,
    link: &LinkArguments<'_>,
    input: &mut KeptInput,
) -> Result<(), Failure<'static>> {
    let link = read_link(rt.alloc(), link)?;
    let mut reader = Real::new(input.reader(rt.reader()));
    let mut writer = Real::new(io::writer(rt));
    match stages_run(
        rt,
        rt.alloc(),
        &mut reader,
        &mut writer,
        &link.chain,
        &link.words,
        cap.items(),
        &OpenGate,
    ) {
        Ok(()) => Ok(()),
        Err(fault) => Err(Failure::from(fault)),
    }
}
