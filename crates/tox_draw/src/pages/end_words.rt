//! Who ended a link, in words.
ghost use Rattle.std.specs.Prelude.{◌≡◌};
ghost use Rattle.tox_draw.specs.pages.StreamEnds.{end_instant_of};
ghost use Rattle.tox_draw.specs.pages.EndWords.{broken_words, closed_words, common_words, cut_words, cutter_words, earlier_words, end_words, ended_by, first_words, is_left_open, reset_words, silent_words, unended_words};

use crate::pages::stream_end::{Cutter, StreamEnd};
use tox_log::BreakCause;
use tox_time::{Micros, Stream};

/// Who ended a link, by the ends of both streams.
pub(crate) fn ended_by(upstream: &StreamEnd, downstream: &StreamEnd) -> &'static str
    ensures { result.now ≡ ended_by upstream.now downstream.now }
{
    if !upstream.tells() {
        return silent_words(upstream, downstream);
    }
    if !downstream.tells() {
        return end_words(upstream, Stream::Upstream, false);
    }
    first_words(upstream, downstream)
}

/// The words of the server's stream, where the log of the client's tells no end.
fn silent_words(upstream: &StreamEnd, downstream: &StreamEnd) -> &'static str
    ensures { result.now ≡ silent_words upstream.now downstream.now }
{
    if downstream.tells() {
        end_words(downstream, Stream::Downstream, false)
    } else {
        unended_words(upstream, downstream)
    }
}

/// The words where neither log tells an end.
fn unended_words(upstream: &StreamEnd, downstream: &StreamEnd) -> &'static str
    ensures { result.now ≡ unended_words upstream.now downstream.now }
{
    match upstream {
        StreamEnd::Missing => "no end",
        _ => end_words(downstream, Stream::Downstream, false),
    }
}

/// The words of the end that came first.
fn first_words(upstream: &StreamEnd, downstream: &StreamEnd) -> &'static str
    ensures { result.now ≡ first_words upstream.now downstream.now
        (end_instant_of upstream.now) (end_instant_of downstream.now) }
{
    match upstream.instant() {
        Some(up) => match downstream.instant() {
            Some(down) => earlier_words(upstream, downstream, &up, &down),
            None => end_words(upstream, Stream::Upstream, is_left_open(downstream)),
        },
        None => match downstream.instant() {
            Some(_) => end_words(downstream, Stream::Downstream, is_left_open(upstream)),
            None => common_words(upstream, downstream),
        },
    }
}

/// The words of the earlier end.
fn earlier_words(
    upstream: &StreamEnd,
    downstream: &StreamEnd,
    up: &Micros,
    down: &Micros,
) -> &'static str
    ensures { result.now ≡ earlier_words upstream.now downstream.now up.now down.now }
{
    if up.get() < down.get() {
        return end_words(upstream, Stream::Upstream, true);
    }
    if down.get() < up.get() {
        return end_words(downstream, Stream::Downstream, true);
    }
    common_words(upstream, downstream)
}

/// The words of both ends, if these are the same.
fn common_words(upstream: &StreamEnd, downstream: &StreamEnd) -> &'static str
    ensures { result.now ≡ common_words upstream.now downstream.now }
{
    let words = end_words(upstream, Stream::Upstream, false);
    if words == end_words(downstream, Stream::Downstream, false) {
        words
    } else {
        cut_words(upstream, downstream)
    }
}

/// The words where both streams broke: a failed write is no cause beside another one, as what cut the link made it fail. Else nobody was
/// first.
fn cut_words(upstream: &StreamEnd, downstream: &StreamEnd) -> &'static str
    ensures { result.now ≡ cut_words upstream.now downstream.now }
{
    match (upstream, downstream) {
        (StreamEnd::Broken(BreakCause::Write), StreamEnd::Broken(cause)) => broken_words(*cause),
        (StreamEnd::Broken(cause), StreamEnd::Broken(BreakCause::Write)) => broken_words(*cause),
        _ => "unknown",
    }
}

/// Whether a stream was left open, so that the other's end is the first.
fn is_left_open(end: &StreamEnd) -> bool
    ensures { result ≡ is_left_open end.now }
{
    matches!(end, StreamEnd::Open)
}

/// Who ended a stream: its source, before the other did or not, or a toxic.
pub(crate) fn end_words(end: &StreamEnd, stream: Stream, first: bool) -> &'static str
    ensures { result.now ≡ end_words end.now stream first }
{
    match end {
        StreamEnd::Closed(_) => closed_words(stream, first),
        StreamEnd::Reset(_) => reset_words(stream),
        StreamEnd::Cut(_, cutter) => cutter_words(*cutter),
        StreamEnd::Open => "open",
        StreamEnd::Broken(cause) => broken_words(*cause),
        StreamEnd::Missing => "no end",
        StreamEnd::Unknown => "unknown",
    }
}

fn closed_words(stream: Stream, first: bool) -> &'static str
    ensures { result.now ≡ closed_words stream first }
{
    match stream {
        Stream::Upstream => {
            if first {
                "client closed first"
            } else {
                "client closed"
            }
        }
        Stream::Downstream => {
            if first {
                "server closed first"
            } else {
                "server closed"
            }
        }
    }
}

fn reset_words(stream: Stream) -> &'static str
    ensures { result.now ≡ reset_words stream }
{
    match stream {
        Stream::Upstream => "client reset",
        Stream::Downstream => "server reset",
    }
}

fn cutter_words(cutter: Cutter) -> &'static str
    ensures { result.now ≡ cutter_words cutter }
{
    match cutter {
        Cutter::LimitData => "by limit_data",
        Cutter::Timeout => "by timeout",
        Cutter::ResetPeer => "by reset_peer",
        Cutter::Unsure => "by toxics",
    }
}

fn broken_words(cause: BreakCause) -> &'static str
    ensures { result.now ≡ broken_words cause }
{
    match cause {
        BreakCause::Write => "broken write",
        BreakCause::Memory => "broken memory",
        BreakCause::Thread => "broken thread",
        BreakCause::Upstream => "broken upstream",
        BreakCause::Stopped => "broken stopped",
    }
}
