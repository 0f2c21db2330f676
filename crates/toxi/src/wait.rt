//! `toxi wait`: until an address accepts a connection.
use crate::explaining::Explaining;
use std::process::ExitCode;
use tox_arguments::WaitArguments;
use tox_explain::{Failure, Inputs};
use tox_proxy::{ServeRuntime, wait_until_ready};

#[inline(never)]
pub fn wait<R: Eprint + AllocGlobal + ServeRuntime>(
    rt: &R,
    explaining: Explaining,
    arguments: &WaitArguments<'_>,
) -> ExitCode {
    match wait_until_ready(rt, rt.alloc(), arguments.address, arguments.within) {
        Ok(()) => ExitCode::SUCCESS,
        Err(fault) => explaining.fail(rt, &Failure::Wait(fault), &Inputs::none()),
    }
}
