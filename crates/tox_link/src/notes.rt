//! What happens on a link, and who is notified.
ghost use Rattle.std.specs.Prelude.{◌≡◌, List, [], ◌∷◌, Option, None, OnOk, OnErr};
ghost use Rattle.tox_link.specs.log.Events.{with_events};
ghost use Rattle.tox_link.specs.declared.notes.LinkEvent.{LinkEvent as OneEvent};

use std::alloc::AllocError;
use tox_time::{Micros, Slice};

/// One event of a link.
#[derive(Clone, Copy, Debug, PartialEq, Eq)]
pub enum LinkEvent {
    /// A piece of so many bytes was taken at this instant.
    Piece(u64, Micros),
    /// The source's end was taken at this instant.
    SourceEnd(Micros),
    /// The slice was written. The core gave it at this reading of the clock.
    Wrote(Slice, Micros),
}

/// Who is notified of a link's events.
pub trait Notes {
    /// The events so far, if they are kept.
    ghost events: { Self → Option (List OneEvent) };

    /// Notes one more event. An `Err` changes nothing.
    fn note(&mut self, event: LinkEvent) -> Result<(), AllocError>
        ensures noted { OnOk result (events self.new ≡ with_events (events self.old) (event ∷ [])) }
        ensures refused { OnErr result (events self.new ≡ events self.old) };
}

/// Notes that keep nothing.
#[derive(Clone, Copy, Debug, PartialEq, Eq)]
pub struct NoNotes;

impl Notes for NoNotes {
    ghost events = { λ notes. None };

    fn note(&mut self, _event: LinkEvent) -> Result<(), AllocError> {
        Ok(())
    }
}
