//! Positions in a stream, and the items that may come next.
ghost use Rattle.std.specs.Prelude.{◌≡◌};
ghost use Rattle.tox_time.specs.streams.StreamPosition.{fits, first_position, position_after};

use crate::micros::Micros;
use crate::streams::item::Item;
use crate::streams::span::MAX_BYTES;

/// How far a stream has come: where its next chunk starts, its latest instant, and whether it is over.
#[derive(Clone, Copy, Debug, PartialEq, Eq)]
pub struct StreamPosition {
    pub position: u64,
    pub latest: Micros,
    pub ended: bool,
}

impl StreamPosition {
    /// Before the first item.
    pub fn start() -> StreamPosition
        ensures { result ≡ first_position }
    {
        StreamPosition {
            position: 0,
            latest: Micros::ZERO,
            ended: false,
        }
    }

    /// Whether the item may come next: nothing follows a final, instants never fall, and a chunk is nonempty,
    /// starts where the last one stopped, and stops by 2^40.
    pub fn fits(&self, item: &Item) -> bool
        ensures { result ≡ fits self.now item.now }
    {
        if self.ended {
            return false;
        }
        match item {
            Item::Chunk(span, instant) => {
                self.latest <= *instant
                    && span.start == self.position
                    && span.start < span.stop
                    && span.stop <= MAX_BYTES
            }
            Item::Closed(instant) | Item::Reset(instant) => self.latest <= *instant,
            Item::Quiet => true,
        }
    }

    /// The position after the item.
    pub fn after(&self, item: &Item) -> StreamPosition
        ensures { result ≡ position_after self.now item.now }
    {
        match item {
            Item::Chunk(span, instant) => StreamPosition {
                position: span.stop,
                latest: *instant,
                ..*self
            },
            Item::Closed(instant) | Item::Reset(instant) => StreamPosition {
                latest: *instant,
                ended: true,
                ..*self
            },
            Item::Quiet => StreamPosition {
                ended: true,
                ..*self
            },
        }
    }
}
