//! Values as the tables of link tests write them: instants are plain microseconds.
use std::process::Abort;
use tests_support::{at, slice};
use tox_link::LinkEvent;

/// An event of a link.
pub enum Event {
    /// A piece of so many bytes was taken at this instant.
    Piece(u64, u64),
    /// The source's end was taken at this instant.
    SourceEnd(u64),
    /// The bytes from the first number to the second were written at their instant.
    Wrote(u64, u64, u64),
}

impl Event {
    fn event(&self) -> LinkEvent {
        match self {
            Event::Piece(len, micros) => LinkEvent::Piece(*len, at(*micros)),
            Event::SourceEnd(micros) => LinkEvent::SourceEnd(at(*micros)),
            Event::Wrote(start, stop, micros) => {
                LinkEvent::Wrote(slice(*start, *stop, *micros), at(*micros))
            }
        }
    }
}

/// The events that a table writes.
pub fn events_of(rt: &(impl Abort + AllocGlobal), table: &[Event]) -> Vec<LinkEvent> {
    let mut events = Vec::new(rt.alloc());
    for event in table {
        events.push(event.event()).expect(rt, "memory");
    }
    events
}
