//! The program `toxi`: a TCP proxy that adds scripted faults.
#![tactic(auto)]

mod any_seed;
mod arguments;
mod draw;
mod dry;
mod due;
mod environment;
mod explaining;
mod files_question;
mod files_status;
mod folder;
mod help;
mod inline;
mod input_end;
mod kept_files;
mod kept_input;
mod link;
mod log_fault;
mod log_folder;
mod log_names;
mod migrate;
mod notices;
mod output;
mod piped_output;
mod plan;
mod progress;
mod replay;
mod replay_texts;
mod report;
mod serve;
mod shutdown;
mod stages;
mod status;
mod toxicities;
mod unknown_toxic;
mod wait;
mod warning_lines;
mod warnings;
mod watch;

use crate::environment::set_variables;
use crate::explaining::Explaining;
use crate::files_question::{FilesQuestion, answer_files};
use crate::piped_output::lacks_reader;
use crate::progress::Terminals;
use clap::Error;
use clap::error::ErrorKind;
use std::fmt::Display;
use std::io::IsTerminal;
use std::net::{Net, TcpListener, TcpStream};
use std::process::ExitCode;
use std::rt::Files;
use std::sync::Wait;
use std::thread::Threads;
use std::time::Clock;
use std::{env, io};
use tox_arguments::{Environment, HelpLines, Task};
use tox_explain::advise;
use tox_proxy::VisibleName;

/// The status of a command line that is refused.
const WRONG_ARGUMENTS: u8 = 2;

fn main(rt: HostRuntime) -> ExitCode {
    let arguments = match env::args(&rt) {
        Ok(arguments) => arguments,
        Err(error) if error.kind() == io::ErrorKind::OutOfMemory => {
            return fail(&rt, &"L0 OutOfMemory");
        }
        Err(_) => {
            let _ = eprintln!(rt; "error: an argument isn't UTF-8");
            return ExitCode::from(WRONG_ARGUMENTS);
        }
    };
    let Ok(arguments) = arguments.collect::<Vec<String>>(rt.alloc()) else {
        return fail(&rt, &"L0 OutOfMemory");
    };
    let Ok(lines) = HelpLines::new(rt.alloc()) else {
        return fail(&rt, &"L0 OutOfMemory");
    };
    let Ok(environment) = set_variables(&rt) else {
        return fail(&rt, &"L0 OutOfMemory");
    };
    match tox_arguments::read(rt.alloc(), arguments.as_slice(), &lines, &environment) {
        Ok(line) => {
            let terminals = Terminals {
                output: rt.stdout().is_terminal(),
                errors: rt.stderr().is_terminal(),
            };
            let explaining = Explaining::of(&rt, line.explain, terminals.errors);
            perform(&rt, explaining, terminals, &line.task)
        },
        Err(refusal) => refuse(&rt, &refusal, arguments.as_slice(), &environment),
    }
}

/// Does what the command line asks for. No command is inlined, so that each has a stack frame of its own.
fn perform<
    R: Input
        + Print
        + Eprint
        + Files
        + AllocGlobal
        + Net<Listener = TcpListener, Stream = TcpStream>
        + Threads
        + Wait
        + Clock
        + Copy
        + Send
        + Sync
        + 'static,
>(rt: &R, explaining: Explaining, terminals: Terminals, task: &Task<'_>) -> ExitCode
where
    R::File: Send + 'static,
    R::Dir: Send + 'static,
    R::Reader: Send + 'static,
{
    match task {
        Task::Dry(link) => dry::dry(rt, explaining, link),
        Task::Draw(arguments) => draw::draw(rt, explaining, terminals, arguments),
        Task::Plan(link) => plan::plan(rt, explaining, link),
        Task::Stages(cap, link) => stages::stages(rt, explaining, cap, link),
        Task::Check(request) => {
            let explaining = explaining.with_verbose(request.verbose);
            answer_files(rt, explaining, FilesQuestion::Check(request))
        }
        Task::Pick { request, verbose } => {
            let explaining = explaining.with_verbose(*verbose);
            answer_files(rt, explaining, FilesQuestion::Pick(request))
        }
        Task::Forecast(request) => answer_files(rt, explaining, FilesQuestion::Forecast(request)),
        Task::Migrate(script) => migrate::migrate(rt, explaining, script),
        Task::PrintFiles(arguments, folder) => {
            inline::print_files(rt, explaining, arguments, folder)
        }
        Task::Serve(arguments) => watch::serve(rt, explaining, arguments),
        Task::Wait(arguments) => wait::wait(rt, explaining, arguments),
        Task::Replay(arguments) => replay::replay(rt, explaining, terminals, arguments),
        Task::Report(arguments) => report::report(rt, explaining, terminals, arguments),
        Task::Help(text) => tell(rt, help::help(rt, *text)),
        Task::Arguments => tell(rt, arguments::arguments(rt)),
    }
}

/// Prints the fault of a command, if it failed. Returns its status.
fn tell<F: Display + Drop>(rt: &impl Eprint, done: Result<(), F>) -> ExitCode {
    match done {
        Ok(()) => ExitCode::SUCCESS,
        Err(fault) => fail(rt, &fault),
    }
}

/// Prints a fault as one line on standard error. If that fails too, the status alone tells of it.
fn fail<F: Display>(rt: &impl Eprint, fault: &F) -> ExitCode {
    let _ = eprintln!(rt; "toxi: {fault}");
    ExitCode::FAILURE
}

/// Prints what `clap` answers in place of a task: help, the version, or what is wrong with the command line.
fn refuse<R: Print + Eprint + AllocGlobal>(
    rt: &R,
    refusal: &Error,
    arguments: &[String],
    environment: &Environment,
) -> ExitCode {
    if refusal.kind() == ErrorKind::OutOfMemory {
        return fail(rt, &"L0 OutOfMemory");
    }
    if refusal.use_stderr() {
        print_mistake(rt, refusal);
        if let Ok(advice) = advise(rt.alloc(), arguments, refusal.kind(), environment) {
            let _ = eprint!(rt; "{advice}");
        }
        return ExitCode::from(refusal.exit_code() as u8);
    }
    match refusal.print(rt) {
        Err(error) if !lacks_reader(&error) => fail(rt, &"L4 WriteFault"),
        _ => ExitCode::from(refusal.exit_code() as u8),
    }
}

/// Prints what is wrong with the command line, whose control characters are escaped. If that fails, the status alone tells of it.
fn print_mistake<R: Eprint + AllocGlobal>(rt: &R, mistake: &Error) {
    let Ok(text) = format!(in rt.alloc(); "{mistake}") else {
        return;
    };
    for line in text.lines() {
        let _ = eprintln!(rt; "{}", VisibleName(line));
    }
}
