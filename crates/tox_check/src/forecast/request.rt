//! What `toxi forecast` is asked, and its answer.
ghost use Rattle.std.specs.Prelude.{◌≡◌, ◌≢◌, ◌≤◌, false, Err, OnOk, IfOk, IfErr};
ghost use Rattle.tox_text.specs.declared.pick_text.PrintPickFault.TheVariants.{WriteFault};
ghost use Rattle.tox_check.specs.forecast.Asked.{AsksFor, IsBadStream};

use crate::forecast::proxy_forecast::print_forecast;
use crate::forecast::question::Question;
use std::alloc::Global;
use tox_runs::{NamedFiles, PickFault, find_proxy, read_setup};
use tox_time::{Sink, Stream};

/// A question: what do the first connections of a proxy meet, by these files and this seed?
#[derive(Clone, Copy, Debug)]
pub struct ForecastRequest<'a> {
    /// The name of the populate file.
    pub config: &'a str,
    /// The name of the script file.
    pub script: &'a str,
    /// The name of the proxy.
    pub proxy: &'a str,
    /// The number of connections, 1 to 1,000,000.
    pub links: u64,
    /// The name of the stream whose lines are wanted, or None for both.
    pub stream: Option<&'a str>,
    /// The name that an applied toxic of a wanted line has, or None for any line.
    pub named: Option<&'a str>,
    pub seed: u64,
    /// Whether each line is an object of JSON.
    pub json: bool,
    pub ghost numbered: { (1 ≤ links) × (links ≤ 1_000_000) },
}

impl<'a> ForecastRequest<'a> {
    ghost use Rattle.tox_check.specs.forecast.Forecasting.{HasForecastCause, WritesForecast};

    /// Writes the answer as a forecast text, in words or in objects of JSON.
    ///
    /// The faults are those of [`PickRequest::answer`](tox_runs::PickRequest), in the same order. Nothing is written after a
    /// fault, except after a failed write: then a prefix of the text is.
    pub fn answer<F: NamedFiles, W: Sink>(
        &self,
        files: &F,
        alloc: Global,
        writer: &mut W,
    ) -> Result<(), PickFault<'a>>
        requires { W.failed writer.old ≡ false }
        ensures ok { OnOk result
            (WritesForecast (F.known files.now) self.now (W.written writer.old)
            (W.written writer.new)) }
        ensures fault { IfErr result
            (HasForecastCause (F.known files.now) self.now (W.written writer.old)
            (W.written writer.new) (W.failed writer.new)) }
        ensures working { result ≢ Err (PickFault.Print WriteFault)
            → W.failed writer.new ≡ false }
        ensures stream_first { IsBadStream self.now.stream → result ≡ Err PickFault.BadStream }
    {
        let stream = asked_stream(self.stream)?;
        let setup = read_setup(files, alloc, self.config, self.script)?;
        let Some(proxy) = find_proxy(&setup.proxies, self.proxy) else {
            return Err(PickFault::UnknownProxy(self.proxy));
        };
        let question = Question {
            links: self.links,
            seed: self.seed,
            stream,
            named: self.named,
            json: self.json,
        };
        print_forecast(alloc, writer, &proxy.name, &setup.script, &question)?;
        Ok(())
    }
}

/// The stream of a name, where one is asked for.
fn asked_stream<'a>(name: Option<&str>) -> Result<Option<Stream>, PickFault<'a>>
    ensures ok { IfOk result (AsksFor name.entry) }
    ensures fault { IfErr result
        (λ fault. (fault ≡ PickFault.BadStream) × IsBadStream name.entry) }
{
    let Some(name) = name else {
        return Ok(None);
    };
    match Stream::of_name(name) {
        Some(stream) => Ok(Some(stream)),
        None => Err(PickFault::BadStream),
    }
}
