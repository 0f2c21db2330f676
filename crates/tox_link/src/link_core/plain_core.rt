//! The core of a plan without operations: it keeps a few numbers, and no runner or words.
ghost use Rattle.std.specs.Prelude.{◌≡◌, ◌+◌, ◌<◌, ◌≤◌, List, [], ◌∷◌, false, IfSome};
ghost use Rattle.tox_time.specs.declared.streams.item.Item.{Item as OneItem};
ghost use Rattle.tox_time.specs.streams.Table.{final_of};
ghost use Rattle.tox_compile.specs.Meaning.{Ops};
ghost use Rattle.tox_link.specs.link_core.Core.{remaining_output, core_ending, kept_count};
ghost use Rattle.tox_link.specs.link_core.NewCore.{Begins};
ghost use Rattle.tox_link.specs.link_core.Acts.{Answered, HearsPiece, HearsEnd};

use crate::link_core::act::Act;
use crate::link_core::waiting::WaitingPiece;
use arrayvec::ArrayVec;
use std::marker::Model;
use tox_time::{ArrivalFault, Ending, Micros, Slice, Span, StreamPosition};

/// How many pieces it has room for: those of one read.
pub(crate) const PLAIN_PIECES: usize = 4;

/// The core of a plan without operations. It has room for four pieces, each of which is one slice that leaves at once.
#[derive(Drop)]
pub(crate) struct PlainCore {
    so_far: StreamPosition,
    /// Where the next slice starts.
    given: u64,
    waiting: ArrayVec<WaitingPiece, PLAIN_PIECES>,
    end: Option<Micros>,
}

impl Model for PlainCore {
    ghost use Rattle.tox_link.specs.link_core.Core.{CoreView};

    ghost Value = { CoreView };

    ghost use Rattle.tox_link.specs.link_core.PlainInside.{plain_view, IsPlain};

    ghost view = { plain_view };

    ghost invariant = { IsPlain };
}

impl PlainCore {
    /// A core at which nothing has arrived. Its last instant is 0.
    pub fn new() -> PlainCore
        ensures begins { (plan : Ops) (words : List _) → plan.ops ≡ [] → Begins plan words result }
        ensures room { result.room ≡ 4 }
    {
        PlainCore {
            so_far: StreamPosition::start(),
            given: 0,
            waiting: ArrayVec::new(),
            end: None,
        }
    }

    /// How many pieces it has room for beside those that it keeps.
    pub fn room_left(&self) -> usize
        ensures { result + kept_count self.now ≡ self.now.room }
    {
        PLAIN_PIECES - self.waiting.len()
    }

    /// The last instant handed in, 0 at first.
    pub fn latest(&self) -> Micros
        ensures { result ≡ self.now.latest }
    {
        self.so_far.latest
    }

    /// How many cuts it gave: none, since no operation cuts a piece.
    pub fn cuts(&self) -> u64
        ensures { result ≡ self.now.runner.cuts }
    {
        // The prover looks into a value where a field of it is read.
        let _ = &self.given;
        0
    }

    /// The ending, once the source has ended and no piece waits.
    pub fn ending(&self) -> Option<Ending>
        ensures value { result ≡ core_ending self.now }
        ensures only { IfSome result (λ last. (items : List OneItem)
            → remaining_output self.now items ≡ final_of last ∷ []) }
    {
        if !self.waiting.is_empty() {
            return None;
        }
        let end = self.end?;
        Some(Ending::Closed(end))
    }

    /// A piece of `len` bytes arrived at `instant`. Refused as by [`LinkCore`](crate::LinkCore).
    pub fn on_piece(&mut self, len: u64, instant: Micros) -> Result<(), ArrivalFault>
        requires room { kept_count self.old < self.old.room }
        requires later { self.old.latest ≤ instant }
        ensures hears { HearsPiece self.old self.new len instant result }
        ensures small { self.old.room ≡ 4 }
    {
        self.so_far = self.so_far.with_piece(len, instant)?;
        self.waiting.push(WaitingPiece { len, instant });
        Ok(())
    }

    /// The source ended at `end`.
    pub fn on_end(&mut self, end: Micros)
        requires first { self.old.ended ≡ false }
        requires later { self.old.latest ≤ end }
        ensures { HearsEnd self.old self.new end }
    {
        self.so_far.ended = true;
        self.so_far.latest = end;
        self.end = Some(end);
    }

    /// What to do at `now`: write the first piece that waits, or end once the source has.
    pub fn on_clock(&mut self, now: Micros) -> Act
        requires { self.old.latest ≤ now }
        ensures { Answered self.old self.new now result }
    {
        self.so_far.latest = now;
        if self.waiting.is_empty() {
            return match self.end {
                Some(end) => Act::ending(&Ending::Closed(end), now, true),
                None => Act::WaitForInput,
            };
        }
        let piece = self.waiting.remove(0);
        let start = self.given;
        self.given += piece.len;
        Act::Write(Slice {
            span: Span {
                start,
                stop: self.given,
            },
            instant: piece.instant,
        })
    }
}
