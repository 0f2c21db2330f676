//! One toxic at work on a stream, item by item.
ghost use Rattle.std.specs.Prelude.{◌≡◌, ◌^◌, ◌<◌, ◌≤◌, ◌↔◌, List, [], true, IsTrue};
ghost use Rattle.tox_words.specs.Draw.{draw_in, lane_count};
ghost use Rattle.tox_defs.specs.Toxic.{IsInRange};
ghost use Rattle.tox_defs.specs.Flow.{toxic_reaction};
ghost use Rattle.tox_defs.specs.operations.Op.{op_of, op_reaction};
ghost use Rattle.tox_time.specs.streams.StreamPosition.{fits, AllFit};
ghost use Rattle.tox_defs.specs.Laws.{HasLaw, KeepsStreams};
ghost use Rattle.tox_time.specs.declared.streams.item.Item.{Item as OneItem};
ghost use Rattle.tox_time.specs.streams.Stream.{IsStream, arrived};

use crate::operations::op::Op;
use crate::operations::op_cursor::{Emission, OpCursor};
use crate::toxic::Toxic;
use std::marker::Model;
use tox_time::{Ending, Item, StreamPosition};
use tox_words::{Drawing, Lanes, Words};

/// A toxic at work on one stream: it takes an item, and then emits what the toxic gives for it.
///
/// It keeps the unread rest of its last chunk and no list of items.
#[derive(Drop)]
pub struct Stage<'w> {
    cursor: OpCursor,
    start: u64,
    drawing: Drawing<'w>,
    place: StreamPosition,
}

impl<'w> Model for Stage<'w> {
    ghost use Rattle.tox_defs.specs.stage.Stage.{Staged};

    ghost Value = { Staged };

    ghost use Rattle.tox_defs.specs.stage.StageInside.{staged, KeepsStage};

    ghost view = { staged };

    ghost invariant = { KeepsStage };
}

impl<'w> Stage<'w> {
    ghost use Rattle.tox_defs.specs.stage.Stage.{first_stage, taken, MatchEmitted};

    /// The stage of a toxic at this place of its chain, before its first item. It draws from the lane of that number.
    pub fn new(toxic: Toxic, lanes: Lanes, lane: usize, words: &'w Words) -> Stage<'w>
        requires in_range { IsInRange toxic }
        requires place { lane < lane_count lanes }
        ensures first { result ≡ first_stage (op_of lane toxic)
            (record { lanes = lanes; words = words.now }) }
        ensures law { HasLaw toxic }
        ensures streams { KeepsStreams toxic }
        ensures takes { (items : List OneItem) → IsStream items → arrived items ≤ 2 ^ 40
            → AllFit result.place items }
        ensures reacts { op_reaction (op_of lane toxic) (draw_in lanes words.now)
            ≡ toxic_reaction toxic (draw_in lanes words.now lane) }
    {
        Stage {
            cursor: OpCursor::new(&Op::of(&toxic, lane)),
            start: 0,
            drawing: Drawing::new(lanes, words),
            place: StreamPosition::start(),
        }
    }

    /// Whether nothing is left to emit.
    pub fn is_idle(&self) -> bool
        ensures { IsTrue result ↔ (self.now.pending ≡ []) }
    {
        self.cursor.ending.is_none() && self.start == self.cursor.stop
    }

    /// Whether the item may follow those taken so far.
    pub fn may_take(&self, item: &Item) -> bool
        ensures { result ≡ fits self.now.place item.now }
    {
        self.place.fits(item)
    }

    /// Takes an item. `emit` then gives what the toxic makes of it.
    pub fn take(&mut self, item: Item)
        requires idle { self.old.pending ≡ [] }
        requires fits { fits self.old.place item ≡ true }
        ensures { self.new ≡ taken self.old item }
    {
        self.place = self.place.after(&item);
        let ending = match item {
            Item::Chunk(span, instant) => {
                self.cursor.stop = span.stop;
                self.cursor.instant = instant;
                if self.cursor.state.done {
                    self.start = span.stop;
                } else if self.cursor.op.is_mute() {
                    self.start = span.stop;
                    self.cursor.state.add_chunk();
                }
                return;
            }
            Item::Closed(instant) => Ending::Closed(instant),
            Item::Reset(instant) => Ending::Reset(instant),
            Item::Quiet => Ending::StillOpen,
        };
        if !self.cursor.state.done {
            let last = self.cursor.op.map_ending(&self.cursor.state, &ending);
            self.cursor.state.add_ending(&last);
            self.cursor.ending = Some(last);
        }
    }

    /// The next item that the toxic gives, or None if nothing is left.
    pub fn emit(&mut self) -> Option<Item>
        ensures { MatchEmitted self.old self.new result }
    {
        if self.cursor.ending.is_none() && self.start < self.cursor.stop {
            if let Emission::Piece(piece) = self.cursor.advance(self.start, &self.drawing) {
                self.start = piece.span.stop;
                return Some(Item::Chunk(piece.span, piece.instant));
            }
        }
        let Some(ending) = self.cursor.ending else {
            return None;
        };
        self.cursor.ending = None;
        self.start = self.cursor.stop;
        Some(ending.to_item())
    }
}
