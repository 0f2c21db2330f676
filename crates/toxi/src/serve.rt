//! `toxi serve`: proxies that listen. Each line is on standard output as it comes.
use crate::any_seed::any_seed;
use crate::explaining::Explaining;
use crate::files_status::{FileNames, fail_files};
use crate::folder::make_folder;
use crate::kept_files::KeptFiles;
use crate::log_folder::LogFolder;
use crate::notices::{PrintedNotices, send_notice, tell_soon};
use crate::output::PatientOutput;
use crate::shutdown::Shutdown;
use crate::toxicities::send_toxicities;
use crate::warning_lines::send_warnings;
use crate::warnings::print_warnings;
use std::alloc::Global;
use std::fs;
use std::rt::Files;
use std::sync::{Mutex, Wait};
use std::time::Clock;
use tox_arguments::{ServeArguments, ServeSource, UsedVariable};
use tox_explain::{Failure, Inputs};
use tox_proxy::{
    InlineFault, NoticeChannel, ServeFault, ServeOptions, ServeRuntime, Setup, Stop, VisibleName,
    inline_setup, read_setup, serve_with, tell_waiting,
};

/// A file that gives and takes nothing.
const NOTHING: &str = "/dev/null";

/// A file that takes the number of a standard descriptor that was closed at the start. Else a socket takes it, and the
/// lines go to its peer.
pub fn hold_descriptor<R: Files>(rt: &R) -> Option<R::File> {
    fs::open(rt, NOTHING).ok()
}

/// What is served.
#[derive(Drop)]
enum Source {
    /// The names of a populate file and of a script file.
    Files { config: String, script: String },
    /// What the command line itself sets up.
    Inline(Setup),
}

/// What `serve` is asked for, kept by the thread that serves.
#[derive(Drop)]
pub struct ServeJob {
    explaining: Explaining,
    /// What the environment told, each as its variable has it.
    variables: Vec<String>,
    source: Source,
    /// None: one is drawn.
    seed: Option<u64>,
    /// The address for probes.
    ready: Option<String>,
    /// The folder of logs.
    folder: Option<String>,
    /// Whether warnings aren't reported.
    quiet: bool,
    /// All but the address for probes.
    options: ServeOptions<'static>,
}

impl ServeJob {
    /// What a command line asks for.
    pub fn of(
        alloc: Global,
        explaining: Explaining,
        arguments: &ServeArguments<'_>,
    ) -> Result<ServeJob, InlineFault> {
        let variables = lines_of(alloc, &arguments.variables)?;
        let source = source_of(alloc, &arguments.source)?;
        let folder = owned_where(alloc, arguments.folder)?;
        let ready = owned_where(alloc, arguments.options.ready)?;
        Ok(ServeJob {
            explaining,
            variables,
            source,
            seed: arguments.seed,
            ready,
            folder,
            quiet: arguments.quiet,
            options: kept(&arguments.options),
        })
    }

    /// The folder of logs.
    fn folder(&self) -> Option<&str> {
        text_of(&self.folder)
    }

    /// The options of serving.
    fn options(&self) -> ServeOptions<'_> {
        ServeOptions {
            ready: text_of(&self.ready),
            ..self.options
        }
    }
}

/// The options that the thread keeps: all but the address for probes, whose text it owns itself.
fn kept(options: &ServeOptions<'_>) -> ServeOptions<'static> {
    ServeOptions {
        links: options.links,
        connect_timeout: options.connect_timeout,
        ready: None,
        workers: options.workers,
        logs: options.logs,
        verbose: options.verbose,
        form: options.form,
    }
}

/// The line that tells of each variable.
fn lines_of(alloc: Global, variables: &[UsedVariable<'_>]) -> Result<Vec<String>, InlineFault> {
    let mut lines = Vec::new(alloc);
    for variable in variables {
        let Ok(line) = format!(in alloc; "{}={}", variable.name, VisibleName(variable.value)) else {
            return Err(InlineFault::OutOfMemory);
        };
        if lines.push(line).is_err() {
            return Err(InlineFault::OutOfMemory);
        }
    }
    Ok(lines)
}

/// What is served, kept.
fn source_of(alloc: Global, source: &ServeSource<'_>) -> Result<Source, InlineFault> {
    match source {
        ServeSource::Files { config, script } => Ok(Source::Files {
            config: owned(alloc, config)?,
            script: owned(alloc, script)?,
        }),
        ServeSource::Inline(arguments) => {
            let made = inline_setup(alloc, &arguments.inline())?;
            Ok(Source::Inline(made.setup))
        }
    }
}

fn owned(alloc: Global, text: &str) -> Result<String, InlineFault> {
    text.to_string(alloc).map_err(|_| InlineFault::OutOfMemory)
}

/// A text, if it is there.
fn text_of(text: &Option<String>) -> Option<&str> {
    match text {
        Some(text) => Some(text.as_str()),
        None => None,
    }
}

/// An owned copy of a text, if there is one.
fn owned_where(alloc: Global, text: Option<&str>) -> Result<Option<String>, InlineFault> {
    match text {
        Some(text) => Ok(Some(owned(alloc, text)?)),
        None => Ok(None),
    }
}

/// Serves what is set up, and returns the status of the program. What the environment told is told first.
pub fn serve_job<R: Print + Eprint + Files + AllocGlobal + ServeRuntime>(
    rt: &R,
    job: &ServeJob,
    shutdown: &Shutdown,
) -> u8
where
    R::File: Send + 'static,
    R::Dir: Send + 'static,
{
    for line in &job.variables {
        tell_soon(rt, line);
    }
    match &job.source {
        Source::Inline(setup) => serve_setup(rt, job, setup, shutdown),
        Source::Files { config, script } => {
            serve_files(rt, job, config.as_str(), script.as_str(), shutdown)
        }
    }
}

/// Serves what the files of these names set up.
fn serve_files<R: Print + Eprint + Files + AllocGlobal + ServeRuntime>(
    rt: &R,
    job: &ServeJob,
    config: &str,
    script: &str,
    shutdown: &Shutdown,
) -> u8
where
    R::File: Send + 'static,
    R::Dir: Send + 'static,
{
    let files = KeptFiles::new(rt, rt.alloc(), job.explaining);
    let read = read_setup(&files, rt.alloc(), config, script);
    let files = files.into_read();
    match read {
        Ok(setup) => {
            // What is served needs no memory for the files.
            drop(files);
            serve_setup(rt, job, &setup, shutdown)
        }
        Err(fault) => {
            let names = FileNames {
                config,
                script,
                stream: None,
            };
            fail_files(rt, job.explaining, &names, &files, Failure::from(fault));
            1
        }
    }
}

/// Makes the folder of logs, tells and prints the warnings, and serves.
fn serve_setup<R: Print + Eprint + Files + AllocGlobal + ServeRuntime>(
    rt: &R,
    job: &ServeJob,
    setup: &Setup,
    shutdown: &Shutdown,
) -> u8
where
    R::File: Send + 'static,
    R::Dir: Send + 'static,
{
    if let Some(folder) = job.folder() {
        if let Err(refusal) = make_folder(rt, folder) {
            return refused(rt, job, setup, &Failure::LogRefused(folder, refusal));
        }
    }
    let Ok(channel) = NoticeChannel::new(rt.alloc(), setup.proxies.len()) else {
        return refused(rt, job, setup, &Failure::Serve(ServeFault::OutOfMemory));
    };
    let ended = Stop::new();
    let notices = PrintedNotices::new(rt, &ended);
    let seed = seed_of(rt, job, &channel);
    if !job.quiet {
        send_warnings(rt, setup, &channel);
    }
    if job.options.verbose {
        send_toxicities(rt, &setup.script, &channel);
        // A warning that can't be printed is no reason not to serve.
        let _ = print_warnings(rt, setup, job.options.form, shutdown);
    }
    let Err(fault) = serve_proxies(rt, setup, job, seed, shutdown, &channel, &notices) else {
        return 0;
    };
    // What was sent before is told before the fault.
    let _ = tell_waiting(rt, rt.alloc(), &channel, &setup.proxies, &notices);
    refused(rt, job, setup, &Failure::Serve(fault))
}

/// The seed that is given, or else one that is drawn and reported on standard error.
fn seed_of<R: AllocGlobal + Files + Wait + Clock>(
    rt: &R,
    job: &ServeJob,
    channel: &NoticeChannel,
) -> u64 {
    if let Some(seed) = job.seed {
        return seed;
    }
    let seed = any_seed(rt);
    if let Ok(text) = format!(in rt.alloc(); "seed {seed}") {
        send_notice(rt, channel, &text);
    }
    seed
}

/// Tells why nothing is served. Returns the status of the program.
fn refused<R: Eprint + AllocGlobal>(
    rt: &R,
    job: &ServeJob,
    setup: &Setup,
    failure: &Failure<'_>,
) -> u8 {
    let inputs = Inputs {
        ready: text_of(&job.ready),
        proxies: &setup.proxies,
        ..Inputs::none()
    };
    job.explaining.fail(rt, failure, &inputs);
    1
}

/// Serves the proxies of the files.
fn serve_proxies<'a, R: Print + Eprint + Files + AllocGlobal + ServeRuntime>(
    rt: &R,
    setup: &'a Setup,
    job: &ServeJob,
    seed: u64,
    shutdown: &Shutdown,
    channel: &NoticeChannel,
    notices: &PrintedNotices<'_, R>,
) -> Result<(), ServeFault<'a>>
where
    R::File: Send + 'static,
    R::Dir: Send + 'static,
{
    let stop = &shutdown.stop;
    let out = Mutex::new(PatientOutput::new(rt, shutdown));
    let files = LogFolder {
        rt,
        folder: job.folder(),
        channel,
        shutdown,
    };
    serve_with(
        rt,
        rt.alloc(),
        &setup.proxies,
        &setup.script,
        seed,
        &out,
        channel,
        notices,
        stop,
        &files,
        &job.options(),
    )
}
