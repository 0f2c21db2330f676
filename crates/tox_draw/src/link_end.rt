//! How a drawn link ended.
ghost use Rattle.std.specs.Prelude.{◌≡◌};
ghost use Rattle.tox_draw.specs.LinkEnds.{end_instant, end_of, link_end_word};

use tox_time::{Ending, Micros};

/// How a link ended, as a picture tells it.
#[derive(Clone, Copy)]
pub(crate) enum LinkEnd {
    Open,
    Closed(Micros),
    Reset(Micros),
    /// A log tells that the stream broke off. Its last reading.
    Broken(Micros),
    /// A log has no last line. Its last reading.
    Missing(Micros),
}

impl LinkEnd {
    /// An ending of a plan.
    pub(crate) fn of(ending: &Ending) -> LinkEnd
        ensures { result ≡ end_of ending.now }
    {
        match ending {
            Ending::StillOpen => LinkEnd::Open,
            Ending::Closed(instant) => LinkEnd::Closed(*instant),
            Ending::Reset(instant) => LinkEnd::Reset(*instant),
        }
    }

    /// Its instant, unless it is open.
    pub(crate) fn instant(&self) -> Option<Micros>
        ensures { result ≡ end_instant self.now }
    {
        match self {
            LinkEnd::Open => None,
            LinkEnd::Closed(instant)
            | LinkEnd::Reset(instant)
            | LinkEnd::Broken(instant)
            | LinkEnd::Missing(instant) => Some(*instant),
        }
    }

    pub(crate) fn word(&self) -> &'static str
        ensures { result.now ≡ link_end_word self.now }
    {
        match self {
            LinkEnd::Open => "open",
            LinkEnd::Closed(_) => "closed",
            LinkEnd::Reset(_) => "reset",
            LinkEnd::Broken(_) => "broken",
            LinkEnd::Missing(_) => "no end",
        }
    }
}
