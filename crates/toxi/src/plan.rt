//! `toxi plan`: what toxics are compiled into, on standard output.
use crate::explaining::Explaining;
use crate::kept_input::KeptInput;
use crate::link::{link_status, read_link};
use std::io;
use std::process::ExitCode;
use tox_arguments::LinkArguments;
use tox_compile::compile;
use tox_explain::Failure;
use tox_proxy::print_plan;
use tox_time::Real;

/// Prints the plan of a link, and returns the status of the program.
#[inline(never)]
pub fn plan<R: Print + Eprint + AllocGlobal>(
    rt: &R,
    explaining: Explaining,
    link: &LinkArguments<'_>,
) -> ExitCode {
    let input = KeptInput::new(rt.alloc(), explaining);
    link_status(rt, explaining, link, &input, print(rt, link))
}

/// Reads the link, and prints its plan.
fn print<R: Print + AllocGlobal>(rt: &R, link: &LinkArguments<'_>) -> Result<(), Failure<'static>> {
    let link = read_link(rt.alloc(), link)?;
    let mut writer = Real::new(io::writer(rt));
    match print_plan(&mut writer, &compile(&link.chain, &link.words)) {
        Ok(()) => Ok(()),
        Err(fault) => Err(Failure::from(fault)),
    }
}
