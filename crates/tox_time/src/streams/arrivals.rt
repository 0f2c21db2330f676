//! What arrives on a link, and what is refused.
ghost use Rattle.std.specs.Prelude.{◌≡◌, ◌≢◌, ◌+◌, ◌<◌, ◌≤◌, ◌^◌, [], ◌∷◌, ◌++◌, List, OnOk, OnErr, IfErr};
ghost use Rattle.tox_time.specs.streams.Arrivals.{push_fault, eof_fault, next_chunk};

use crate::micros::Micros;
use crate::streams::item::Item;
use crate::streams::position::StreamPosition;
use crate::streams::span::Span;
use std::alloc::Global;
use std::marker::Model;
use thiserror::Error;

/// Why an arrival was refused.
#[derive(Clone, Copy, Debug, PartialEq, Eq, Error)]
pub enum ArrivalFault {
    /// Its instant is below the last one.
    #[error("A1 TimeBack")]
    TimeBack,
    /// The piece has no bytes.
    #[error("A2 EmptyPiece")]
    EmptyPiece,
    /// The link would have more than 2^40 bytes.
    #[error("A3 TooManyBytes")]
    TooManyBytes,
    /// The source ended before.
    #[error("A4 AfterEnd")]
    AfterEnd,
    #[error("A0 OutOfMemory")]
    OutOfMemory,
}

/// What arrived on a link, piece by piece, and whether its source ended: always an arrival list.
#[derive(Debug, Drop)]
pub struct Arrivals {
    items: Vec<Item>,
    so_far: StreamPosition,
}

impl Model for Arrivals {
    ghost use Rattle.std.specs.Prelude.{List};
    ghost use Rattle.tox_time.specs.declared.streams.item.Item.{Item as OneItem};

    ghost Value = { List OneItem };

    ghost use Rattle.tox_time.specs.streams.ArrivalsInside.{KeepsArrivals};

    ghost view = { λ a. a.items.items };

    ghost invariant = { KeepsArrivals };
}

impl Arrivals {
    ghost use Rattle.tox_time.specs.streams.Stream.{IsArrivalList, arrived};
    ghost use Rattle.tox_time.specs.streams.Arrivals.{arrival_list};

    /// Nothing arrived yet; takes no memory.
    pub fn new(alloc: Global) -> Arrivals
        ensures { result ≡ [] }
    {
        Arrivals {
            items: Vec::new(alloc),
            so_far: StreamPosition::start(),
        }
    }

    /// Adds a piece of `len` bytes that arrived at `instant`.
    ///
    /// Refuses, in this order, an instant below the last one, an empty piece, more than 2^40 bytes
    /// in all, a piece after the end; and then if out of memory. A refusal changes nothing.
    pub fn push(&mut self, len: u64, instant: Micros) -> Result<(), ArrivalFault>
        ensures ok { OnOk result (self.new ≡ self.old ++ next_chunk self.old len instant ∷ []) }
        ensures accepted { OnOk result (push_fault self.old len instant ≡ None) }
        ensures fault { IfErr result
            (λ e. e ≢ ArrivalFault.OutOfMemory → push_fault self.old len instant ≡ Some e) }
        ensures memory_last { result ≡ Err ArrivalFault.OutOfMemory
            → push_fault self.old len instant ≡ None }
        ensures err { OnErr result (self.new ≡ self.old) }
    {
        let next = self.so_far.with_piece(len, instant)?;
        let span = Span {
            start: self.so_far.position,
            stop: next.position,
        };
        self.items
            .push(Item::Chunk(span, instant))
            .map_err(|_| ArrivalFault::OutOfMemory)?;
        self.so_far = next;
        Ok(())
    }

    /// The source ended at `instant`.
    ///
    /// Refuses, in this order, an instant below the last one and a second end; and then if out of
    /// memory. A refusal changes nothing.
    pub fn eof(&mut self, instant: Micros) -> Result<(), ArrivalFault>
        ensures ok { OnOk result (self.new ≡ self.old ++ Item.Closed instant ∷ []) }
        ensures accepted { OnOk result (eof_fault self.old instant ≡ None) }
        ensures fault { IfErr result
            (λ e. e ≢ ArrivalFault.OutOfMemory → eof_fault self.old instant ≡ Some e) }
        ensures memory_last { result ≡ Err ArrivalFault.OutOfMemory
            → eof_fault self.old instant ≡ None }
        ensures err { OnErr result (self.new ≡ self.old) }
    {
        let next = self.so_far.with_end(instant)?;
        self.items
            .push(Item::Closed(instant))
            .map_err(|_| ArrivalFault::OutOfMemory)?;
        self.so_far = next;
        Ok(())
    }

    /// The chunks, then `Closed` if the source ended. Otherwise a `Quiet` that isn't stored ends the list.
    pub fn items(&self) -> &[Item]
        ensures stored { result.now ≡ self.now }
        ensures list { IsArrivalList (arrival_list self.now) }
        ensures bound { arrived self.now ≤ 2 ^ 40 }
    {
        &self.items
    }
}
