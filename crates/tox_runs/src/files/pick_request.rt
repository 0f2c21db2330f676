//! What `toxi pick` is asked, and its answer.
ghost use Rattle.std.specs.Prelude.{◌≡◌, ◌≢◌, ◌≤◌, false, None, Err, OnOk, IfErr};
ghost use Rattle.tox_time.specs.streams.StreamName.{stream_named};

use crate::files::finding::find_proxy;
use crate::files::named_files::NamedFiles;
use crate::files::setup::{SetupFault, read_setup};
use std::alloc::Global;
use thiserror::Error;
use tox_text::{PrintPickFault, VisibleName, print_pick};
use tox_time::{Sink, Stream};

/// A question: what does this connection of a proxy meet on a stream, by these files and this seed?
#[derive(Clone, Copy, Debug)]
pub struct PickRequest<'a> {
    /// The name of the populate file.
    pub config: &'a str,
    /// The name of the script file.
    pub script: &'a str,
    /// The name of the proxy.
    pub proxy: &'a str,
    /// The number of the connection, 1 to 1,000,000.
    pub conn: u64,
    /// The name of the stream: `upstream` or `downstream`.
    pub stream: &'a str,
    pub seed: u64,
    pub ghost numbered: { (1 ≤ conn) × (conn ≤ 1_000_000) },
}

/// Why a question got no answer.
#[derive(Clone, Copy, Debug, PartialEq, Eq, Error)]
pub enum PickFault<'a> {
    /// No stream has this name.
    #[error("P5 BadStream")]
    BadStream,
    /// A file was not read, or is refused.
    #[error("{0}")]
    Setup(SetupFault<'a>),
    /// The populate file has no proxy of this name.
    #[error("P3 UnknownProxy {}", VisibleName(.0))]
    UnknownProxy(&'a str),
    /// The answer was not printed.
    #[error("{0}")]
    Print(PrintPickFault),
}

impl<'a> From<SetupFault<'a>> for PickFault<'a> {
    ghost use Rattle.tox_runs.specs.declared.files.pick_request.PickFault.TheVariants as pick;

    ghost from_gives = { λ cause fault. fault ≡ pick.Setup cause };

    fn from(fault: SetupFault<'a>) -> PickFault<'a> {
        PickFault::Setup(fault)
    }
}

impl<'a> From<PrintPickFault> for PickFault<'a> {
    ghost use Rattle.tox_runs.specs.declared.files.pick_request.PickFault.TheVariants as pick;

    ghost from_gives = { λ cause fault. fault ≡ pick.Print cause };

    fn from(fault: PrintPickFault) -> PickFault<'a> {
        PickFault::Print(fault)
    }
}

impl<'a> PickRequest<'a> {
    ghost use Rattle.tox_runs.specs.files.Picking.{HasPickCause, WritesPick};

    /// Writes the answer as a pick text.
    ///
    /// The stream's name is read first, then the populate file, then the script, and then the proxy is looked for: the
    /// first fault is returned. Nothing is written after a fault, except after a failed write: then a prefix of the text is.
    pub fn answer<F: NamedFiles, W: Sink>(
        &self,
        files: &F,
        alloc: Global,
        writer: &mut W,
    ) -> Result<(), PickFault<'a>>
        requires { W.failed writer.old ≡ false }
        ensures ok { OnOk result
            (WritesPick (F.known files.now) self.now (W.written writer.old)
            (W.written writer.new)) }
        ensures fault { IfErr result
            (HasPickCause (F.known files.now) self.now (W.written writer.old) (W.written writer.new)
            (W.failed writer.new)) }
        ensures working { result ≢ Err (PickFault.Print PrintPickFault.WriteFault)
            → W.failed writer.new ≡ false }
        ensures stream_first { stream_named self.now.stream.now ≡ None
            → result ≡ Err PickFault.BadStream }
    {
        let Some(stream) = Stream::of_name(self.stream) else {
            return Err(PickFault::BadStream);
        };
        let setup = read_setup(files, alloc, self.config, self.script)?;
        let Some(proxy) = find_proxy(&setup.proxies, self.proxy) else {
            return Err(PickFault::UnknownProxy(self.proxy));
        };
        print_pick(
            alloc,
            writer,
            proxy,
            &setup.script,
            self.conn,
            stream,
            self.seed,
        )?;
        Ok(())
    }
}
