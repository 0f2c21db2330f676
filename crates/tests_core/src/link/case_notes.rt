//! Notes that keep what a case asks for.
ghost use Rattle.std.specs.Prelude.{None};

use crate::link::link_ends::Noted;
use std::alloc::{AllocError, Global};
use tox_link::{LinkEvent, NoNotes, Notes};

/// Which events are kept.
#[derive(Clone, Copy)]
pub enum Kept {
    All,
    Pieces,
    Nothing,
}

/// Notes that keep some events.
#[derive(Drop)]
pub struct CaseNotes {
    pub noted: Noted,
    kept: Kept,
}

impl CaseNotes {
    pub fn new(alloc: Global, kept: Kept) -> CaseNotes {
        CaseNotes {
            noted: Noted::new(alloc),
            kept,
        }
    }
}

impl Notes for CaseNotes {
    ghost events = { λ _. None };

    fn note(&mut self, event: LinkEvent) -> Result<(), AllocError> {
        match (self.kept, event) {
            (Kept::All, _) | (Kept::Pieces, LinkEvent::Piece(_, _)) => self.noted.note(event),
            _ => NoNotes.note(event),
        }
    }
}
