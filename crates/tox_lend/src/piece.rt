//! Arrived bytes at their positions.
use crate::lent::Lent;
use std::marker::Model;
use tox_time::{Micros, Span};

/// Bytes that arrived together at `instant`, the first of them at position `start` of the link.
#[derive(Debug, Drop)]
pub struct Piece {
    pub start: u64,
    pub bytes: Vec<u8>,
    pub instant: Micros,
}

impl Model for Piece {
    ghost use Rattle.tox_lend.specs.Run.{Run};

    ghost Value = { Run };

    ghost use Rattle.std.specs.Prelude.{vec_capacity};

    ghost view = { λ p. record {
      start = p.start;
      bytes = p.bytes.items;
      instant = p.instant;
      room = vec_capacity p.bytes;
    } };
}

impl Piece {
    ghost use Rattle.std.specs.Prelude.{◌≡◌, nat_le};
    ghost use Rattle.tox_lend.specs.Run.{LiesIn, stop_of};
    ghost use Rattle.tox_lend.specs.Lent.{IsExactSlice};

    /// The bytes at the positions of the span, as a slice that leaves at `instant`.
    pub fn lend(&self, span: Span, instant: Micros) -> Lent<'_>
        requires { LiesIn span self.now }
        ensures { IsExactSlice self.now span instant result }
    {
        let first = (span.start - self.start) as usize;
        let end = (span.stop - self.start) as usize;
        Lent {
            start: span.start,
            instant,
            bytes: &self.bytes[first..end],
        }
    }

    /// Whether it ends at or before this position.
    pub(crate) fn ends_by(&self, position: u64) -> bool
        ensures { result ≡ nat_le (stop_of self.now) position }
    {
        self.start <= position && self.bytes.len() as u64 <= position - self.start
    }
}
