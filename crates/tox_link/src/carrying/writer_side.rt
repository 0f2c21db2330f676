//! The writer's side of a link: what came through the ring, and how much of it is written.
ghost use Rattle.std.specs.Prelude.{◌≡◌, [], List, filter, nat_lt, IfNone, IfOk};
ghost use Rattle.rtrb.specs.Ring.{sent, received, IsPair};
ghost use Rattle.tox_lend.specs.Run.{stop_of};
ghost use Rattle.tox_link.specs.steps.Held.{MayTake};
ghost use Rattle.tox_link.specs.carrying.Side.{IsFresh};
ghost use Rattle.tox_link.specs.Meaning.{MeansPlan};

use crate::link_core::direction_core::{DirectionCore, room_of};
use crate::ring::idle::Idle;
use crate::ring::inbox::Inbox;
use crate::ring::message::Sender;
use crate::ring::vectors::{Emptied, Vectors};
use crate::source_ending::SourceEnding;
use std::alloc::{AllocError, Global};
use tox_compile::Plan;
use tox_lend::Window;
use tox_words::Words;

/// The writer's side of a link.
#[derive(Drop)]
pub struct WriterSide<'w> {
    pub core: DirectionCore<'w>,
    pub window: Window,
    pub inbox: Inbox,
    /// Takes the vectors of the pieces that are given up.
    pub emptied: Emptied,
    /// How the source ended, if its end came before the ending was known.
    pub source: SourceEnding,
    /// Whether the source's end came.
    pub ended: bool,
    /// How many bytes are written.
    pub written: u64,
}

impl<'w> WriterSide<'w> {
    /// The writer's side of a link of the plan, and what its reader's thread gets: its end of the ring, and its vectors.
    pub fn new(
        alloc: Global,
        plan: Plan,
        words: &'w Words,
    ) -> Result<(WriterSide<'w>, Sender, Vectors), AllocError>
        ensures meaning { IfOk result (λ made. MeansPlan plan words.now made.0.core) }
        ensures fresh { IfOk result (λ made. IsFresh made.0) }
        ensures ring { IfOk result (λ made. (sent made.1 ≡ [])
            × (IsPair made.1 made.0.inbox.receiver)) }
    {
        let window = Window::new(alloc, room_of(&plan))?;
        let (inbox, sender) = Inbox::new(alloc)?;
        let (emptied, vectors) = Vectors::new(alloc)?;
        let side = WriterSide {
            core: DirectionCore::new(alloc, plan, words)?,
            window,
            inbox,
            emptied,
            source: SourceEnding::NotReached,
            ended: false,
            written: 0,
        };
        Ok((side, sender, vectors))
    }

    /// Gives up the pieces that end at or before a position. Their vectors go back to the reader's thread where it has room for them.
    pub fn give_up(&mut self, position: u64)
        ensures { self.new ≡ record self.old {
          window = record self.old.window {
            held = filter (λ piece. nat_lt position (stop_of piece)) self.old.window.held;
          };
          emptied = self.new.emptied;
        } }
    {
        while let Some(piece) = self.window.take_ended(position) {
            // A vector for which there is no room is dropped.
            let _ = self.emptied.push(piece.bytes);
        }
    }

    /// None if a message may be taken.
    pub fn idle(&self) -> Option<Idle>
        ensures { IfNone result (MayTake self.now.core self.now.window self.now.ended) }
    {
        Idle::of_look(&self.core, &self.window, self.ended)
    }
}
