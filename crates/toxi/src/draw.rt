//! `toxi draw`: the picture of a link, on standard output.
ghost use Rattle.std.specs.Prelude.{◌≡◌, false};

use crate::explaining::Explaining;
use crate::kept_input::KeptInput;
use crate::link::{link_status, read_link};
use crate::log_fault::fail_log;
use crate::piped_output::PipedOutput;
use crate::progress::{Progress, Terminals};
use std::alloc::Global;
use std::process::ExitCode;
use std::rt::Files;
use std::time::Clock;
use tox_arguments::{DrawArguments, LinkArguments};
use tox_explain::Failure;
use tox_proxy::{ReplayFault, Verdict, draw_log, draw_run, judge_log};
use tox_time::{Real, Sink};

/// Draws a link whose arrivals are on standard input, or a log. Returns the status of the program.
#[inline(never)]
pub fn draw<R: Input + Print + Eprint + Files + AllocGlobal + Clock>(
    rt: &R,
    explaining: Explaining,
    terminals: Terminals,
    arguments: &DrawArguments<'_>,
) -> ExitCode {
    let mut output = PipedOutput::new();
    match arguments {
        DrawArguments::Link(link) => {
            let mut input = KeptInput::new(rt.alloc(), explaining);
            match draw_link(rt, link, &mut input, &mut output) {
                Err(_) if output.reader_left() => ExitCode::SUCCESS,
                done => link_status(rt, explaining, link, &input, done),
            }
        }
        DrawArguments::Log(name) => {
            let progress = Progress::new(rt, terminals, Some(1));
            let mut writer = Real::new(progress.writer(output.writer(rt)));
            let drawn = draw_file(rt.alloc(), &progress, name, &mut writer);
            progress.clear();
            match drawn {
                Ok(()) => ExitCode::SUCCESS,
                Err(_) if output.reader_left() => ExitCode::SUCCESS,
                Err(fault) => {
                    let failure = Failure::Log(fault, progress.take_refusal());
                    fail_log(rt, explaining, name, &failure)
                }
            }
        }
    }
}

/// Reads the link, and then the input.
fn draw_link<R: Input + Print + AllocGlobal>(
    rt: &R,
    link: &LinkArguments<'_>,
    input: &mut KeptInput,
    output: &mut PipedOutput,
) -> Result<(), Failure<'static>> {
    let link = read_link(rt.alloc(), link)?;
    let mut reader = Real::new(input.reader(rt.reader()));
    let mut writer = Real::new(output.writer(rt));
    match draw_run(
        rt.alloc(),
        &mut reader,
        &mut writer,
        &link.chain,
        &link.words,
    ) {
        Ok(()) => Ok(()),
        Err(fault) => Err(Failure::Dry(fault)),
    }
}

/// Judges the log in a file, and draws it unless it is unfaithful.
fn draw_file<'a, 'p, R: Eprint + Files + Clock, W: Sink>(
    alloc: Global,
    progress: &'p Progress<'p, R>,
    name: &'a str,
    writer: &mut W,
) -> Result<(), ReplayFault<'a>>
    requires { W.failed writer.old ≡ false }
{
    progress.begin_log(name, 3);
    let Some(file) = progress.open(name) else {
        return Err(ReplayFault::Unreadable(name));
    };
    match judge_log(alloc, &mut Real::new(file)) {
        Ok(log) => {
            if let Verdict::Unfaithful(_) = log.verdict {
                return Err(ReplayFault::NotFaithful(1));
            }
        }
        Err(fault) => return Err(ReplayFault::of(name, &fault)),
    }
    let Some(first) = progress.open(name) else {
        return Err(ReplayFault::Unreadable(name));
    };
    let Some(second) = progress.open(name) else {
        return Err(ReplayFault::Unreadable(name));
    };
    draw_log(
        alloc,
        name,
        &mut Real::new(first),
        &mut Real::new(second),
        writer,
    )
}
