//! The pieces that are still needed: a ring of neighbours with fixed room.
ghost use Rattle.std.specs.Prelude.{◌≡◌, ◌+◌, ◌<◌, ◌≤◌, ◌^◌, ◌↔◌, [], ◌∷◌, ◌++◌, drop, filter, find, length, nat_lt, nat_le, slice_get, true, false, IfOk, IfSome, IfNone, IsTrue, option_copied};
ghost use Rattle.std.specs.List.Sorted.{IsPartitionPoint};
ghost use Rattle.tox_lend.specs.Run.{stop_of};
ghost use Rattle.tox_lend.specs.Window.{JoinUpTo, has_position};

use crate::piece::Piece;
use crate::ring::take_front;
use std::alloc::{AllocError, Global};
use std::collections::VecDeque;
use std::marker::Model;

/// At most a set number of nonempty pieces, each of which starts where the one before it stops.
///
/// Its room is reserved when it is made: no later call takes memory. Dropping the first piece moves no other one.
#[derive(Debug, Drop)]
pub struct Window {
    held: VecDeque<Piece>,
    room: usize,
    stop: u64,
}

impl Model for Window {
    ghost use Rattle.tox_lend.specs.Window.{Pieces};

    ghost Value = { Pieces };

    ghost use Rattle.tox_lend.specs.WindowInside.{KeepsWindow, pieces_seen};

    ghost view = { pieces_seen };

    ghost invariant = { KeepsWindow };
}

impl Window {
    /// An empty window with room for so many pieces. The first of them must start at position 0.
    pub fn new(alloc: Global, pieces: usize) -> Result<Window, AllocError>
        ensures { IfOk result (λ window. window ≡ record { held = []; room = pieces; stop = 0 }) }
    {
        let held = VecDeque::with_capacity(alloc, pieces)?;
        Ok(Window {
            held,
            room: pieces,
            stop: 0,
        })
    }

    /// Whether it holds fewer pieces than it has room for.
    pub fn has_room(&self) -> bool
        ensures value { IsTrue result ↔ (length self.now.held < self.now.room) }
        ensures few { length self.now.held ≤ self.now.room }
    {
        self.held.len() < self.room
    }

    /// How many pieces it has room for beside those that it holds.
    pub fn room_left(&self) -> usize
        ensures { result + length self.now.held ≡ self.now.room }
    {
        self.room - self.held.len()
    }

    /// Where the next piece must start: where the last one stopped, or 0 if none was added yet.
    pub fn stop(&self) -> u64
        ensures value { result ≡ self.now.stop }
        ensures neighbours { JoinUpTo self.now.stop self.now.held }
    {
        self.stop
    }

    /// Adds a nonempty piece behind the others. Its positions must be below 2^64.
    pub fn add(&mut self, piece: Piece)
        requires room { length self.old.held < self.old.room }
        requires some { 0 < length piece.bytes }
        requires starts { piece.start ≡ self.old.stop }
        requires fits { stop_of piece < 2 ^ 64 }
        ensures { self.new
            ≡ record self.old { held = self.old.held ++ piece ∷ []; stop = stop_of piece } }
    {
        self.stop = piece.start + piece.bytes.len() as u64;
        self.held.push_back_reserved(piece);
    }

    /// Drops each piece that ends at or before a position, and no other.
    pub fn drop_before(&mut self, position: u64)
        ensures { self.new
            ≡ record self.old {
              held = filter (λ piece. nat_lt position (stop_of piece)) self.old.held;
            } }
    {
        while let Some(_piece) = self.take_ended(position) {}
    }

    /// Hands out the first piece if it ends at or before a position. None if it ends behind it, or if none is held.
    pub fn take_ended(&mut self, position: u64) -> Option<Piece>
        ensures same { self.new ≡ record self.old { held = self.new.held } }
        ensures some { IfSome result (λ piece. (self.old.held ≡ piece ∷ self.new.held)
            × (stop_of piece ≤ position)) }
        ensures none { IfNone result ((self.new.held ≡ self.old.held)
            × (filter (λ piece. nat_lt position (stop_of piece)) self.old.held ≡ self.old.held)) }
        ensures sifted { filter (λ piece. nat_lt position (stop_of piece)) self.new.held
            ≡ filter (λ piece. nat_lt position (stop_of piece)) self.old.held }
    {
        if !self.held.front()?.ends_by(position) {
            return None;
        }
        take_front(&mut self.held)
    }

    /// Hands out the first piece and keeps the others, or None if it holds none.
    pub fn take_first(&mut self) -> Option<Piece>
        ensures first { result ≡ slice_get self.old.held 0 }
        ensures rest { self.new ≡ record self.old { held = drop 1 self.old.held } }
    {
        self.held.pop_front()
    }

    /// The piece that has this position, or None if no held piece has it.
    pub fn piece(&self, position: u64) -> Option<&Piece>
        ensures { option_copied result ≡ find (has_position position) self.now.held }
    {
        let piece = self.held.get(self.ended_by(position))?;
        if position < piece.start {
            return None;
        }
        Some(piece)
    }

    /// How many pieces end at or before a position. They are the first ones.
    fn ended_by(&self, position: u64) -> usize
        ensures few { result ≤ length self.now.held }
        ensures ended { IsPartitionPoint (λ piece. nat_le (stop_of piece) position ≡ true)
            (λ piece. nat_le (stop_of piece) position ≡ false) self.now.held result }
    {
        self.held.partition_point(|piece| piece.ends_by(position))
    }
}
