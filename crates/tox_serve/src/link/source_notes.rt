//! The notes of a stream beside its sockets.
ghost use Rattle.std.specs.Prelude.{◌≡◌, None, IfSome};

use crate::link::end::Carried;
use std::alloc::{AllocError, Global};
use std::marker::Model;
use std::sync::{Arc, Wait};
use tox_link::{LinkEvent, Notes};
use tox_log::StreamNotes;
use tox_sockets::LinkSockets;
use tox_time::Stream;

/// The notes of a stream. If the source has reset the connection, its end is noted as a reset. Once the link is aborted an end isn't
/// noted: a reader that the abort wakes reads one that never came.
#[derive(Drop)]
pub(crate) struct SourceNotes<'r, R> {
    notes: StreamNotes<'r, R>,
    sockets: Arc<LinkSockets, Global>,
    stream: Stream,
}

impl<'r, R> Model for SourceNotes<'r, R> {
    ghost use Rattle.std.specs.Prelude.{List, ℕ, Option};

    ghost Value = { Option (List ℕ) };

    ghost view = { λ source. source.notes };
}

impl<'r, R: Wait> SourceNotes<'r, R> {
    /// Notes that keep nothing. None if the link can't be shared once more.
    pub(crate) fn none(
        rt: &'r R,
        sockets: &Arc<LinkSockets, Global>,
        stream: Stream,
    ) -> Option<SourceNotes<'r, R>>
        ensures { IfSome result (λ made. made ≡ None) }
    {
        let shared = sockets.clone().ok()?;
        Some(SourceNotes::of(StreamNotes::none(rt), shared, stream))
    }

    /// The notes of a stream of a link with these sockets.
    pub(crate) fn of(
        notes: StreamNotes<'r, R>,
        sockets: Arc<LinkSockets, Global>,
        stream: Stream,
    ) -> SourceNotes<'r, R>
        ensures { result ≡ notes.entry }
    {
        SourceNotes {
            notes,
            sockets,
            stream,
        }
    }

    /// Replaces the notes of the stream.
    pub(crate) fn change(&mut self, notes: StreamNotes<'r, R>)
        ensures { self.new ≡ notes.entry }
    {
        self.notes = notes;
    }

    /// Notes the last line of the stream's log: how the stream ended, and what it carried.
    pub(crate) fn end(&self, carried: &Carried) {
        self.notes.end(&carried.last_line());
    }
}

impl<'r, R: Wait> Notes for SourceNotes<'r, R> {
    ghost events = { λ notes. None };

    fn note(&mut self, event: LinkEvent) -> Result<(), AllocError> {
        if let LinkEvent::SourceEnd(_) = &event {
            if self.sockets.is_aborted() {
                return Ok(());
            }
            if self.sockets.was_reset(self.stream) {
                self.notes.source_was_reset();
            }
        }
        self.notes.note(event)
    }
}
