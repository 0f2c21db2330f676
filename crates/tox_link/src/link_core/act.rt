//! What a link core answers: what its writer does next.
ghost use Rattle.std.specs.Prelude.{◌≡◌};
ghost use Rattle.tox_link.specs.link_core.Acts.{end_act, wait_act};

use tox_time::{Ending, Micros, Slice};

/// What the writer of a link does next.
#[derive(Clone, Copy, Debug, PartialEq, Eq)]
pub enum Act {
    /// Write the bytes of this slice.
    Write(Slice),
    /// Nothing happens before this instant, unless input comes.
    WaitUntil(Micros),
    /// Nothing happens before input comes.
    WaitForInput,
    /// End the link in this way.
    End(Ending),
}

impl Act {
    /// What to do while the ending is unknown and no slice is left.
    pub(crate) fn until(deadline: Option<Micros>) -> Act
        ensures { result ≡ wait_act deadline }
    {
        match deadline {
            Some(deadline) => Act::WaitUntil(deadline),
            None => Act::WaitForInput,
        }
    }

    /// What to do at `now` once the ending is known and no slice is left.
    pub(crate) fn ending(ending: &Ending, now: Micros, ended: bool) -> Act
        ensures { result ≡ end_act ended now ending.now }
    {
        match ending {
            Ending::Closed(instant) | Ending::Reset(instant) if *instant > now => {
                Act::WaitUntil(*instant)
            }
            Ending::StillOpen if !ended => Act::WaitForInput,
            _ => Act::End(*ending),
        }
    }
}
