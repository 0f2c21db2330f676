//! The fault of a log, with the line of it that is refused.
use crate::explaining::Explaining;
use std::fs;
use std::process::ExitCode;
use std::rt::Files;
use tox_explain::{Failure, Inputs, NamedText};
use tox_proxy::read_file;

/// Tells why the log of this name isn't judged. The line below is read again.
pub fn fail_log<R: Eprint + Files + AllocGlobal>(
    rt: &R,
    explaining: Explaining,
    name: &str,
    failure: &Failure<'_>,
) -> ExitCode {
    let bytes = if explaining.needs_inputs() {
        log_bytes(rt, name)
    } else {
        None
    };
    match &bytes {
        Some(bytes) => explaining.fail(rt, failure, &inputs_of(name, bytes)),
        None => explaining.fail(rt, failure, &Inputs::none()),
    }
}

/// What an explanation reads of a log.
fn inputs_of<'x>(name: &'x str, bytes: &'x [u8]) -> Inputs<'x> {
    Inputs {
        lines: Some(NamedText { name, bytes }),
        ..Inputs::none()
    }
}

/// The bytes of a plain file. Another isn't read again: it might be waited for.
fn log_bytes<R: Files + AllocGlobal>(rt: &R, name: &str) -> Option<Vec<u8>> {
    if fs::metadata(rt, name).ok()?.is_file() {
        read_file(rt, rt.alloc(), name).ok()
    } else {
        None
    }
}
