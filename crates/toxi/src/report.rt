//! `toxi report`: the page of a run, on standard output.
use crate::explaining::Explaining;
use crate::log_fault::fail_log;
use crate::log_names::{LogTask, NamesTaken, log_count, take_names};
use crate::piped_output::PipedOutput;
use crate::progress::{CountedReader, Progress, Terminals};
use crate::replay::last_status;
use std::marker::PhantomData;
use std::process::ExitCode;
use std::rt::Files;
use std::time::Clock;
use tox_arguments::ReportArguments;
use tox_explain::{Failure, Inputs};
use tox_proxy::{LogStore, Report};
use tox_time::Real;

/// The logs in files.
#[derive(Clone, Copy)]
struct LogsInFiles<'p, R> {
    rt: &'p R,
    progress: &'p Progress<'p, R>,
}

impl<'p, R: Eprint + Files + Clock> LogStore for LogsInFiles<'p, R> {
    type Reader = Real<CountedReader<'p, R::File, R>>;

    fn open(&self, name: &str) -> Option<Real<CountedReader<'p, R::File, R>>> {
        self.progress.begin_log(name, 1);
        self.progress.open(name).map(Real::new)
    }
}

/// No logs, for names that no file has.
#[derive(Clone, Copy)]
struct NoFiles<R> {
    files: PhantomData<R>,
}

impl<R: Files> LogStore for NoFiles<R> {
    type Reader = Real<R::File>;

    fn open(&self, _name: &str) -> Option<Real<R::File>> {
        None
    }
}

/// A report, and whether a fault was reported.
#[derive(Drop)]
struct Collected<'p, R> {
    explaining: Explaining,
    progress: &'p Progress<'p, R>,
    report: Report,
    failed: bool,
}

impl<'p, R: Eprint + Files + AllocGlobal + Clock> Collected<'p, R> {
    /// Judges the log of this name. False if the report ends.
    fn judge<S: LogStore>(&mut self, rt: &R, logs: &S, name: &str) -> bool {
        match self.report.judge(rt.alloc(), logs, name) {
            Ok(()) => true,
            Err(fault) => {
                self.progress.clear();
                let failure = Failure::Log(fault, self.progress.take_refusal());
                fail_log(rt, self.explaining, name, &failure);
                self.failed = true;
                !fault.ends()
            }
        }
    }
}

impl<'p, R: Eprint + Files + AllocGlobal + Clock> LogTask<R> for Collected<'p, R> {
    fn take(&mut self, rt: &R, name: &str) -> bool {
        let logs = LogsInFiles {
            rt: self.progress.runtime(),
            progress: self.progress,
        };
        self.judge(rt, &logs, name)
    }

    fn miss(&mut self, rt: &R, name: &str) -> bool {
        let none = NoFiles::<R> { files: PhantomData };
        self.judge(rt, &none, name)
    }
}

/// Judges the logs, and then prints their page.
#[inline(never)]
pub fn report<R: Input + Print + Eprint + Files + AllocGlobal + Clock>(
    rt: &R,
    explaining: Explaining,
    terminals: Terminals,
    arguments: &ReportArguments<'_>,
) -> ExitCode {
    let progress = Progress::new(rt, terminals, log_count(&arguments.files));
    let mut collected = Collected {
        explaining,
        progress: &progress,
        report: Report::new(rt.alloc()),
        failed: false,
    };
    match take_names(rt, &arguments.files, &mut collected) {
        NamesTaken::Ended => return ExitCode::FAILURE,
        NamesTaken::Some => collected.failed = true,
        NamesTaken::All => {}
    }
    let Collected { report, failed, .. } = collected;
    progress.begin_pictures();
    print_page(rt, explaining, &progress, arguments, report, failed)
}

/// Prints the page of a report. A fault was reported before or not.
fn print_page<'p, R: Print + Eprint + Files + AllocGlobal + Clock>(
    rt: &'p R,
    explaining: Explaining,
    progress: &'p Progress<'p, R>,
    arguments: &ReportArguments<'_>,
    report: Report,
    failed: bool,
) -> ExitCode {
    let unfaithful = report.unfaithful();
    let mut output = PipedOutput::new();
    let mut writer = Real::new(progress.writer(output.writer(rt)));
    let logs = LogsInFiles { rt, progress };
    let written = report.write(
        rt.alloc(),
        &logs,
        arguments.title,
        arguments.pictures,
        &mut writer,
    );
    progress.clear();
    match written {
        Ok(()) => last_status(rt, explaining, unfaithful, failed),
        Err(_) if output.reader_left() => ExitCode::SUCCESS,
        Err(fault) => explaining.fail(rt, &Failure::from(fault), &Inputs::none()),
    }
}
