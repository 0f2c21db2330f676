//! Who ended a stream, by its log.
ghost use Rattle.std.specs.Prelude.{◌≡◌};
ghost use Rattle.std.specs.List.{list_any};
ghost use Rattle.tox_defs.specs.Flow.{applied};
ghost use Rattle.tox_draw.specs.pages.StreamEnds.{by_source, by_source_or, by_toxic_at, cutter_among, cutter_of, cutting_limit, cutting_timeout, end_instant_of, stream_end_of, tells_end};

use crate::pages::outcome::Outcome;
use tox_defs::{Chain, Placed, Toxic};
use tox_log::BreakCause;
use tox_time::Micros;
use tox_words::Words;

/// The type of the toxic that ended a stream.
#[derive(Clone, Copy)]
pub(crate) enum Cutter {
    LimitData,
    Timeout,
    ResetPeer,
    /// One of several types.
    Unsure,
}

/// Who ended a stream.
#[derive(Clone, Copy)]
pub(crate) enum StreamEnd {
    /// Its source closed.
    Closed(Micros),
    /// Its source was reset by its peer.
    Reset(Micros),
    /// A toxic closed or reset it.
    Cut(Micros, Cutter),
    /// Nobody: it was left open.
    Open,
    /// It broke off.
    Broken(BreakCause),
    /// The log has no last line.
    Missing,
    /// The log isn't faithful.
    Unknown,
}

impl StreamEnd {
    /// Who ended a stream with this outcome, whose source ended then, by a reset or not. A toxic that closed it is of this type.
    pub(crate) fn of(
        outcome: &Outcome,
        source_end: &Option<Micros>,
        source_reset: bool,
        cutter: Cutter,
    ) -> StreamEnd
        ensures { result
            ≡ stream_end_of outcome.now source_end.now source_reset cutter }
    {
        let other = match outcome {
            Outcome::Unfaithful(_) => return StreamEnd::Unknown,
            Outcome::Cut(instant) => {
                return by_toxic_at(instant, cutter, source_end, source_reset);
            }
            Outcome::Reset(instant) => {
                return by_toxic_at(instant, Cutter::ResetPeer, source_end, source_reset);
            }
            Outcome::Closed(instant) => StreamEnd::Closed(*instant),
            Outcome::SourceReset(instant) => StreamEnd::Reset(*instant),
            Outcome::Open => StreamEnd::Open,
            Outcome::Broken(cause) => StreamEnd::Broken(*cause),
            Outcome::Missing => StreamEnd::Missing,
        };
        by_source_or(other, source_end, source_reset)
    }

    /// When the stream ended, if the log says so.
    pub(crate) fn instant(&self) -> Option<Micros>
        ensures { result ≡ end_instant_of self.now }
    {
        match self {
            StreamEnd::Closed(instant) | StreamEnd::Reset(instant) | StreamEnd::Cut(instant, _) =>
                Some(*instant),
            StreamEnd::Open | StreamEnd::Broken(_) | StreamEnd::Missing | StreamEnd::Unknown => {
                None
            }
        }
    }

    /// Whether the log says how the stream ended.
    pub(crate) fn tells(&self) -> bool
        ensures { result ≡ tells_end self.now }
    {
        !matches!(self, StreamEnd::Missing | StreamEnd::Unknown)
    }
}

/// The type of the toxics of a chain that close a stream, if these words apply such toxics of one type alone.
pub(crate) fn cutter_of(chain: &Chain, words: &Words) -> Cutter
    ensures { result ≡ cutter_of chain.now words.now }
{
    let applied = chain.applied(words);
    cutter_among(any_limits(&applied), any_times_out(&applied))
}

fn any_limits(applied: &[Placed]) -> bool
    ensures { result ≡ list_any cutting_limit applied.now }
{
    applied.iter().any(limits)
}

fn any_times_out(applied: &[Placed]) -> bool
    ensures { result ≡ list_any cutting_timeout applied.now }
{
    applied.iter().any(times_out)
}

fn limits(placed: &Placed) -> bool
    ensures { result ≡ cutting_limit placed.now }
{
    matches!(placed.toxic, Toxic::LimitData { .. })
}

fn times_out(placed: &Placed) -> bool
    ensures { result ≡ cutting_timeout placed.now }
{
    matches!(placed.toxic, Toxic::Timeout { .. })
}

fn cutter_among(limits: bool, times_out: bool) -> Cutter
    ensures { result ≡ cutter_among limits times_out }
{
    match (limits, times_out) {
        (true, false) => Cutter::LimitData,
        (false, true) => Cutter::Timeout,
        _ => Cutter::Unsure,
    }
}

/// A source that ended at an instant, by a reset or not.
fn by_source(instant: &Micros, source_reset: bool) -> StreamEnd
    ensures { result ≡ by_source instant.now source_reset }
{
    if source_reset {
        StreamEnd::Reset(*instant)
    } else {
        StreamEnd::Closed(*instant)
    }
}

/// The source, if it ended, or else another end.
fn by_source_or(other: StreamEnd, source_end: &Option<Micros>, source_reset: bool) -> StreamEnd
    ensures { result ≡ by_source_or other source_end.now source_reset }
{
    match source_end {
        Some(instant) => by_source(instant, source_reset),
        None => other,
    }
}

/// A toxic at an instant, unless the source had ended before.
fn by_toxic_at(
    instant: &Micros,
    cutter: Cutter,
    source_end: &Option<Micros>,
    source_reset: bool,
) -> StreamEnd
    ensures { result ≡ by_toxic_at instant.now cutter source_end.now source_reset }
{
    match source_end {
        Some(source) if source.get() < instant.get() => by_source(source, source_reset),
        _ => StreamEnd::Cut(*instant, cutter),
    }
}
