//! `toxi replay` with `--arrivals`, `--words` or `--result`: what one log says, on standard output.
ghost use Rattle.std.specs.Prelude.{◌≡◌, false};

use crate::explaining::Explaining;
use crate::log_fault::fail_log;
use crate::piped_output::PipedOutput;
use crate::progress::Progress;
use std::alloc::Global;
use std::process::ExitCode;
use std::rt::Files;
use std::time::Clock;
use tox_arguments::ReplayMode;
use tox_defs::Lanes;
use tox_explain::{Failure, Inputs};
use tox_proxy::{
    HeardFault, OpenLog, ReplayFault, ToxicsFault, judge_log, print_heard, print_meant,
    print_words, read_chain,
};
use tox_time::{Real, Sink, Source};

/// Prints what a log says. It is read to its end before anything is printed. Returns the status of the program.
pub fn print_log<'p, R: Print + Eprint + Files + AllocGlobal + Clock>(
    rt: &R,
    explaining: Explaining,
    progress: &'p Progress<'p, R>,
    mode: &ReplayMode<'_>,
    file: &str,
) -> ExitCode {
    if let ReplayMode::Result(toxics) = mode {
        if let Err(fault) = read_chain(Lanes::ThirtyTwo, toxics) {
            let inputs = Inputs {
                toxics,
                ..Inputs::none()
            };
            return explaining.fail(rt, &Failure::Toxics(fault), &inputs);
        }
    }
    let mut output = PipedOutput::new();
    let mut writer = Real::new(progress.writer(output.writer(rt)));
    let printed = print_file(rt.alloc(), progress, mode, file, &mut writer);
    progress.clear();
    match printed {
        Ok(()) => ExitCode::SUCCESS,
        Err(_) if output.reader_left() => ExitCode::SUCCESS,
        Err(failure) => {
            let failure = failure.because(progress.take_refusal());
            fail_log(rt, explaining, file, &failure)
        }
    }
}

/// Prints what the log in a file says.
fn print_file<'a, 'p, R: Eprint + Files + Clock, W: Sink>(
    alloc: Global,
    progress: &'p Progress<'p, R>,
    mode: &ReplayMode<'_>,
    name: &'a str,
    writer: &mut W,
) -> Result<(), Failure<'a>>
    requires { W.failed writer.old ≡ false }
{
    progress.begin_log(name, 2);
    let unreadable = Failure::from(ReplayFault::Unreadable(name));
    let Some(file) = progress.open(name) else {
        return Err(unreadable);
    };
    if let Err(fault) = judge_log(alloc, &mut Real::new(file)) {
        return Err(Failure::from(ReplayFault::of(name, &fault)));
    }
    let Some(file) = progress.open(name) else {
        return Err(unreadable);
    };
    let mut reader = Real::new(file);
    match print_text(alloc, mode, &mut reader, writer) {
        Ok(()) => Ok(()),
        Err(TextFault::Toxics(fault)) => Err(Failure::Toxics(fault)),
        Err(TextFault::Heard(HeardFault::Log(fault))) => {
            Err(Failure::from(ReplayFault::of(name, &fault)))
        }
        Err(TextFault::Heard(HeardFault::WriteFault)) => {
            Err(Failure::from(ReplayFault::WriteFault))
        }
    }
}

/// Why a text was not printed whole.
#[derive(Drop)]
enum TextFault {
    Toxics(ToxicsFault),
    Heard(HeardFault),
}

/// Prints what a log says.
fn print_text<R: Source, W: Sink>(
    alloc: Global,
    mode: &ReplayMode<'_>,
    reader: &mut R,
    writer: &mut W,
) -> Result<(), TextFault>
    requires reads { R.failed reader.old ≡ false }
    requires works { W.failed writer.old ≡ false }
{
    let mut log = match OpenLog::new(alloc, reader) {
        Ok(log) => log,
        Err(fault) => return Err(TextFault::Heard(HeardFault::Log(fault))),
    };
    let printed = match mode {
        ReplayMode::Verdicts => Ok(()),
        ReplayMode::Arrivals => print_heard(&mut log, reader, writer),
        ReplayMode::Words => print_words(alloc, &log, writer),
        ReplayMode::Result(toxics) if toxics.is_empty() => {
            print_meant(alloc, &mut log, reader, writer, None)
        }
        ReplayMode::Result(toxics) => {
            let chain = match read_chain(log.heading().lanes, toxics) {
                Ok(chain) => chain,
                Err(fault) => return Err(TextFault::Toxics(fault)),
            };
            print_meant(alloc, &mut log, reader, writer, Some(&chain))
        }
    };
    printed.map_err(TextFault::Heard)
}
