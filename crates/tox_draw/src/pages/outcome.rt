//! What came of a stream, by its log.
ghost use Rattle.std.specs.Prelude.{◌≡◌};
ghost use Rattle.tox_draw.specs.pages.Outcomes.{closed_outcome, outcome_of, unfinished_outcome, outcome_verdict};

use tox_log::{BreakCause, JudgedLog, Verdict};
use tox_time::{Ending, Micros};

/// What came of a stream, by its log.
#[derive(Clone, Copy)]
pub(crate) enum Outcome {
    Open,
    Closed(Micros),
    /// Closed behind a reset of the source by its peer.
    SourceReset(Micros),
    /// Closed by its plan before its source's end was heard, or with bytes left.
    Cut(Micros),
    Reset(Micros),
    Broken(BreakCause),
    /// The log has no last line.
    Missing,
    /// The log isn't faithful up to the line of this number.
    Unfaithful(u64),
}

impl Outcome {
    /// What came of the stream of a judged log.
    pub(crate) fn of(log: &JudgedLog) -> Outcome
        ensures { result ≡ outcome_of log.now }
    {
        match log.verdict {
            Verdict::Unfaithful(line) => Outcome::Unfaithful(line),
            Verdict::Unfinished => unfinished(log.broken),
            Verdict::Faithful(Ending::StillOpen) => Outcome::Open,
            Verdict::Faithful(Ending::Reset(instant)) => Outcome::Reset(instant),
            Verdict::Faithful(Ending::Closed(instant)) => {
                let whole = log.source_end.is_some() && log.said == log.heard;
                closed(instant, whole, log.source_reset)
            }
        }
    }

    /// What `replay` calls such a log.
    pub(crate) fn verdict(&self) -> &'static str
        ensures { result.now ≡ outcome_verdict self.now }
    {
        match self {
            Outcome::Open
            | Outcome::Closed(_)
            | Outcome::SourceReset(_)
            | Outcome::Cut(_)
            | Outcome::Reset(_) => "faithful",
            Outcome::Broken(_) | Outcome::Missing => "unfinished",
            Outcome::Unfaithful(_) => "unfaithful",
        }
    }
}

/// A faithful log whose stream broke off, or that has no last line.
fn unfinished(broken: Option<BreakCause>) -> Outcome
    ensures { result ≡ unfinished_outcome broken }
{
    match broken {
        Some(cause) => Outcome::Broken(cause),
        None => Outcome::Missing,
    }
}

/// A stream that its plan closed, with all that its source gave or without, which a reset ended or not.
fn closed(instant: Micros, whole: bool, source_reset: bool) -> Outcome
    ensures { result ≡ closed_outcome instant whole source_reset }
{
    if !whole {
        return Outcome::Cut(instant);
    }
    if source_reset {
        Outcome::SourceReset(instant)
    } else {
        Outcome::Closed(instant)
    }
}
