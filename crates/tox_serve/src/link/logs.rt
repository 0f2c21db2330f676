//! The logs of a link's streams.
ghost use Rattle.std.specs.Prelude.{◌≡◌, IfSome};
ghost use Rattle.tox_log.specs.files.FileName.{log_name};
ghost use Rattle.tox_serve.specs.link.LinkEnds.{broken_link};

use crate::link::break_reason::BreakReason;
use crate::link::end::LinkEnd;
use crate::proxy::links::ProxyLinks;
use crate::run::ServeRun;
use std::sync::Wait;
use tox_log::{LastLine, LoggedLink, StreamNotes};
use tox_time::Stream;

/// The notes of a stream of a link: its log, with its header, where the run keeps one.
pub(crate) fn notes_of<'r, R: Wait>(
    rt: &'r R,
    run: &'r ServeRun<'_>,
    links: &ProxyLinks<'_>,
    number: u64,
    stream: Stream,
) -> StreamNotes<'r, R>
    ensures { IfSome result (λ name.
        name ≡ log_name links.now.proxy.now.name links.now.place number stream) }
{
    let Some(logs) = run.logs else {
        return StreamNotes::none(rt);
    };
    let proxy = links.proxy;
    let proxy = proxy.name.as_str();
    let link = logged_link(run, proxy, number, stream);
    let chain = run.script.chain(proxy, number, stream);
    let names = run.script.names(proxy, number, stream);
    logs.open(rt, run.alloc, links.place, &link, chain, names)
}

/// A stream of a numbered link of a proxy of the run, with the run's seed.
fn logged_link<'a>(
    run: &ServeRun<'_>,
    proxy: &'a str,
    number: u64,
    stream: Stream,
) -> LoggedLink<'a>
    ensures link { (result.proxy.now ≡ proxy.now) × (result.number ≡ number) }
    ensures stream { result.stream ≡ stream }
    ensures seed { result.seed ≡ run.now.seed }
{
    LoggedLink {
        proxy,
        number,
        stream,
        seed: run.seed,
    }
}

/// The end of a link that carried nothing, as the logs of its streams tell it: for this reason, unless the run was told to stop. The
/// reason is reported.
pub(crate) fn broken_link<'r, R: Wait>(
    rt: &'r R,
    run: &'r ServeRun<'_>,
    links: &ProxyLinks<'_>,
    number: u64,
    reason: BreakReason,
) -> LinkEnd
    ensures { result ≡ broken_link number }
{
    let reason = note_break(rt, run, links, number, reason);
    let last = LastLine::Broken(reason.cause(), 0);
    for stream in [Stream::Upstream, Stream::Downstream] {
        notes_of(rt, run, links, number, stream).end(&last);
    }
    LinkEnd::broken(number)
}

/// Tells why a link broke: for this reason, unless the run was told to stop. Returns the one that holds.
pub(crate) fn note_break<R: Wait>(
    rt: &R,
    run: &ServeRun<'_>,
    links: &ProxyLinks<'_>,
    number: u64,
    reason: BreakReason,
) -> BreakReason {
    if run.live.is_stopping(rt) {
        return BreakReason::Stopped;
    }
    run.notices.note_break(rt, links.place, number, reason);
    reason
}
