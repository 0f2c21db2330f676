//! `toxi replay`: what logs are, on standard output.
ghost use Rattle.std.specs.Prelude.{◌≡◌, false};

use crate::explaining::Explaining;
use crate::log_fault::fail_log;
use crate::log_names::{LogTask, NamesTaken, log_count, take_names};
use crate::piped_output::PipedOutput;
use crate::progress::{Progress, Terminals};
use crate::replay_texts::print_log;
use std::alloc::Global;
use std::process::ExitCode;
use std::rt::Files;
use std::time::Clock;
use tox_arguments::{ReplayArguments, ReplayMode};
use tox_explain::{Failure, Inputs};
use tox_proxy::{ReplayFault, Verdict, write_judged, write_judged_json};
use tox_time::{Real, Sink};

/// Judges logs, or prints what one of them says.
#[inline(never)]
pub fn replay<R: Input + Print + Eprint + Files + AllocGlobal + Clock>(
    rt: &R,
    explaining: Explaining,
    terminals: Terminals,
    arguments: &ReplayArguments<'_>,
) -> ExitCode {
    let progress = Progress::new(rt, terminals, log_count(&arguments.files));
    match (&arguments.mode, arguments.files.first()) {
        (ReplayMode::Verdicts, _) | (_, None) => judge_logs(rt, explaining, &progress, arguments),
        (mode, Some(file)) => print_log(rt, explaining, &progress, mode, file),
    }
}

/// How the lines of logs are written, and what came of the logs so far.
#[derive(Drop)]
struct Judging<'p, R> {
    explaining: Explaining,
    progress: &'p Progress<'p, R>,
    output: PipedOutput,
    /// Whether each line is a JSON object.
    json: bool,
    /// How many are unfaithful.
    unfaithful: u64,
    /// Whether a fault was reported.
    failed: bool,
}

impl<'p, R: Print + Eprint + Files + AllocGlobal + Clock> LogTask<R> for Judging<'p, R> {
    /// Judges the log in a file, and prints its line or its fault. False if the replay ends.
    fn take(&mut self, rt: &R, name: &str) -> bool {
        let json = self.json;
        let progress = self.progress;
        let mut writer = Real::new(progress.writer(self.output.writer(rt)));
        match judge_into(rt.alloc(), progress, name, json, &mut writer) {
            Ok(Verdict::Unfaithful(_)) => self.unfaithful = self.unfaithful.saturating_add(1),
            Ok(_) => {}
            Err(_) if self.output.reader_left() => return false,
            Err(fault) => {
                self.fail(rt, name, &fault);
                return !fault.ends();
            }
        }
        true
    }

    fn miss(&mut self, rt: &R, name: &str) -> bool {
        self.fail(rt, name, &ReplayFault::Unreadable(name));
        true
    }
}

impl<'p, R: Eprint + Files + AllocGlobal + Clock> Judging<'p, R> {
    /// Tells the fault of a log.
    fn fail(&mut self, rt: &R, name: &str, fault: &ReplayFault<'_>) {
        self.progress.clear();
        let failure = Failure::Log(*fault, self.progress.take_refusal());
        fail_log(rt, self.explaining, name, &failure);
        self.failed = true;
    }
}

/// Judges the logs in order.
fn judge_logs<'p, R: Input + Print + Eprint + Files + AllocGlobal + Clock>(
    rt: &R,
    explaining: Explaining,
    progress: &'p Progress<'p, R>,
    arguments: &ReplayArguments<'_>,
) -> ExitCode {
    let mut judging = Judging {
        explaining,
        progress,
        output: PipedOutput::new(),
        json: arguments.json,
        unfaithful: 0,
        failed: false,
    };
    let taken = take_names(rt, &arguments.files, &mut judging);
    progress.clear();
    match taken {
        NamesTaken::All => last_status(rt, explaining, judging.unfaithful, judging.failed),
        NamesTaken::Some => last_status(rt, explaining, judging.unfaithful, true),
        NamesTaken::Ended => judging.output.status_of_early_end(),
    }
}

/// The status where so many logs are unfaithful, and a fault was reported or not.
pub fn last_status<R: Eprint + AllocGlobal>(
    rt: &R,
    explaining: Explaining,
    unfaithful: u64,
    failed: bool,
) -> ExitCode {
    if unfaithful > 0 {
        let failure = Failure::from(ReplayFault::NotFaithful(unfaithful));
        return explaining.fail(rt, &failure, &Inputs::none());
    }
    if failed {
        ExitCode::FAILURE
    } else {
        ExitCode::SUCCESS
    }
}

/// Judges the log in a file, and prints its line.
fn judge_into<'a, 'p, R: Eprint + Files + Clock, W: Sink>(
    alloc: Global,
    progress: &'p Progress<'p, R>,
    name: &'a str,
    json: bool,
    writer: &mut W,
) -> Result<Verdict, ReplayFault<'a>>
    requires { W.failed writer.old ≡ false }
{
    progress.begin_log(name, 1);
    let Some(file) = progress.open(name) else {
        return Err(ReplayFault::Unreadable(name));
    };
    let mut reader = Real::new(file);
    if json {
        write_judged_json(alloc, name, &mut reader, writer)
    } else {
        write_judged(alloc, name, &mut reader, writer)
    }
}
