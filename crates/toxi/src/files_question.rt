//! `toxi check`, `pick` and `forecast`: a question about a populate file and a script, and its answer on standard output.
ghost use Rattle.std.specs.Prelude.{◌≡◌, false};

use crate::explaining::Explaining;
use crate::files_status::{FileNames, fail_files};
use crate::kept_files::{FilesRead, KeptFiles};
use crate::toxicities::{tell_of_forecast, tell_of_pick};
use crate::unknown_toxic::tell_unknown_toxic;
use std::alloc::Global;
use std::io;
use std::process::ExitCode;
use std::rt::Files;
use tox_explain::Failure;
use tox_proxy::{CheckRequest, ForecastRequest, NamedFiles, PickRequest};
use tox_time::{Real, Sink};

/// A question about the two files.
#[derive(Clone, Copy)]
pub enum FilesQuestion<'a> {
    Check(&'a CheckRequest<'a>),
    Pick(&'a PickRequest<'a>),
    Forecast(&'a ForecastRequest<'a>),
}

/// Reads the files and prints the answer. Returns the status of the program.
#[inline(never)]
pub fn answer_files<R: Files + Print + Eprint + AllocGlobal>(
    rt: &R,
    explaining: Explaining,
    question: FilesQuestion<'_>,
) -> ExitCode {
    let mut writer = Real::new(io::writer(rt));
    let files = KeptFiles::new(rt, rt.alloc(), explaining);
    match question.answer(&files, rt.alloc(), &mut writer) {
        Ok(()) => {
            question.tell(rt, &files.into_read());
            ExitCode::SUCCESS
        }
        Err(failure) => fail_files(
            rt,
            explaining,
            &question.names(),
            &files.into_read(),
            failure,
        ),
    }
}

impl<'a> FilesQuestion<'a> {
    fn names(&self) -> FileNames<'a> {
        let (config, script, stream) = match self {
            FilesQuestion::Check(check) => (check.config, check.script, None),
            FilesQuestion::Pick(pick) => (pick.config, pick.script, Some(pick.stream)),
            FilesQuestion::Forecast(forecast) => (forecast.config, forecast.script, None),
        };
        FileNames {
            config,
            script,
            stream,
        }
    }

    /// Tells what a person asks next, where the files were kept.
    fn tell<R: Eprint + AllocGlobal>(&self, rt: &R, files: &FilesRead) {
        match self {
            FilesQuestion::Check(_) => {}
            FilesQuestion::Pick(pick) => tell_of_pick(rt, pick, files),
            FilesQuestion::Forecast(forecast) => {
                tell_unknown_toxic(rt, forecast, files);
                tell_of_forecast(rt, forecast, files);
            }
        }
    }

    /// Writes the answer.
    fn answer<F: NamedFiles, W: Sink>(
        &self,
        files: &F,
        alloc: Global,
        writer: &mut W,
    ) -> Result<(), Failure<'a>>
        requires { W.failed writer.old ≡ false }
    {
        match self {
            FilesQuestion::Check(check) => check
                .answer(files, alloc, writer)
                .map_err(|fault| Failure::from(fault)),
            FilesQuestion::Pick(pick) => pick
                .answer(files, alloc, writer)
                .map_err(|fault| Failure::from(fault)),
            FilesQuestion::Forecast(forecast) => forecast
                .answer(files, alloc, writer)
                .map_err(|fault| Failure::from(fault)),
        }
    }
}
