//! The core of a live link: given what arrives and what time it is, it says what to do.
ghost use Rattle.std.specs.Prelude.{◌≡◌, ℕ, ◌+◌, ◌<◌, ◌≤◌, ◌↔◌, ◌||◌, List, [], ◌∷◌, ◌++◌, length, true, false, None, Some, IsTrue, IsSome, IfSome, MatchOption, IfOk, OnOk, OnErr, is_some};
ghost use Rattle.tox_time.specs.declared.streams.item.Item.{Item as OneItem};
ghost use Rattle.tox_time.specs.declared.streams.item.Item.TheVariants.{Chunk, Closed, Quiet};
ghost use Rattle.tox_time.specs.streams.Arrivals.{piece_fault};
ghost use Rattle.tox_time.specs.streams.Table.{final_of};
ghost use Rattle.tox_compile.specs.Meaning.{deadline_of};
ghost use Rattle.tox_plan.specs.OpCursors.{ops_of};
ghost use Rattle.tox_plan.specs.RunnerView.{answer_of, known_ending, no_piece};
ghost use Rattle.tox_link.specs.link_core.Core.{remaining_output, core_ending, core_position, core_deadline, kept_count, next_instant, KeepsCore, Looked, IsDrained, IsEmptied, Settled, HandsOnEnd};
ghost use Rattle.tox_link.specs.link_core.NewCore.{core_of, IsNewCore};
ghost use Rattle.tox_link.specs.link_core.Acts.{idle_act, Answered, HearsEnd, HearsPiece, KeepsWritten};
ghost use Rattle.tox_link.specs.declared.link_core.act.Act.TheVariants as ActOf;
ghost use Rattle.tox_time.specs.declared.streams.ending.Ending.{Ending as EndingType};

pub(crate) mod act;
pub(crate) mod direction_core;
pub(crate) mod plain_core;
pub(crate) mod waiting;

use crate::link_core::act::Act;
use crate::link_core::waiting::WaitingPiece;
use std::alloc::{AllocError, Global};
use std::collections::VecDeque;
use std::marker::Model;
use tox_compile::Plan;
use tox_lend::take_front;
use tox_plan::Runner;
use tox_time::{ArrivalFault, Ending, Micros, Slice, StreamPosition};
use tox_words::Words;

/// The most pieces that a core keeps.
pub(crate) const MAX_PIECES: usize = 1024;

/// One direction of one live link, without clock, socket or thread.
///
/// It keeps the lengths and instants of at most 1024 pieces. A piece is kept until an
/// [`on_clock`](LinkCore::on_clock) finds no slice left in it. The instants handed in never fall.
#[derive(Drop)]
pub struct LinkCore<'w> {
    runner: Runner<'w>,
    waiting: VecDeque<WaitingPiece>,
    found: Option<Slice>,
    end: Option<Micros>,
    so_far: StreamPosition,
    deadline: Option<Micros>,
}

impl<'w> Model for LinkCore<'w> {
    ghost use Rattle.tox_link.specs.link_core.Core.{CoreView};

    ghost Value = { CoreView };

    ghost use Rattle.tox_link.specs.link_core.CoreInside.{core_view, IsKept};

    ghost view = { core_view };

    ghost invariant = { IsKept };
}

impl<'w> LinkCore<'w> {
    /// A core of the plan. Nothing has arrived yet, and its last instant is 0.
    ///
    /// # Errors
    ///
    /// Out of memory.
    pub fn new(alloc: Global, plan: Plan, words: &'w Words) -> Result<LinkCore<'w>, AllocError>
        ensures { IfOk result (IsNewCore plan words.now) }
    {
        let deadline = plan.deadline();
        LinkCore::with_runner(alloc, Runner::new(plan, words), deadline)
    }

    /// A core of the plan that keeps its words. Nothing has arrived yet, and its last instant is 0.
    ///
    /// # Errors
    ///
    /// Out of memory.
    pub fn owning(alloc: Global, plan: Plan, words: Words) -> Result<LinkCore<'w>, AllocError>
        ensures { IfOk result (IsNewCore plan words) }
    {
        let deadline = plan.deadline();
        LinkCore::with_runner(alloc, Runner::owning(plan, words), deadline)
    }

    /// A core of a new runner, whose plan has this deadline.
    fn with_runner(
        alloc: Global,
        runner: Runner<'w>,
        deadline: Option<Micros>,
    ) -> Result<LinkCore<'w>, AllocError>
        requires idle { runner.idle ≡ true }
        requires piece { (runner.piece ≡ no_piece) × (runner.latest ≡ 0) }
        requires deadline { deadline ≡ deadline_of (ops_of runner.cursors) }
        ensures { IfOk result (λ core. core ≡ core_of runner.entry) }
    {
        let waiting = VecDeque::with_capacity(alloc, MAX_PIECES)?;
        Ok(LinkCore {
            runner,
            waiting,
            found: None,
            end: None,
            so_far: StreamPosition::start(),
            deadline,
        })
    }

    /// Whether fewer than 1024 pieces are kept.
    pub fn has_room(&self) -> bool
        ensures { IsTrue result ↔ (kept_count self.now < 1024) }
    {
        self.waiting.len() + usize::from(!self.runner.is_idle()) < MAX_PIECES
    }

    /// How many pieces it has room for beside those that it keeps.
    pub(crate) fn room_left(&self) -> usize
        ensures { result + kept_count self.now ≡ 1024 }
    {
        MAX_PIECES - self.waiting.len() - usize::from(!self.runner.is_idle())
    }

    /// The last instant handed in, 0 at first.
    pub fn latest(&self) -> Micros
        ensures { result ≡ self.now.latest }
    {
        self.so_far.latest
    }

    /// How many cuts its runner gave.
    pub(crate) fn cuts(&self) -> u64
        ensures { result ≡ self.now.runner.cuts }
    {
        self.runner.cuts()
    }

    /// The link's ending, once it is known and no piece is kept. Nothing else is then to come.
    pub fn ending(&self) -> Option<Ending>
        ensures value { result ≡ core_ending self.now }
        ensures only { IfSome result (λ last. (items : List OneItem)
            → remaining_output self.now items ≡ final_of last ∷ []) }
    {
        if self.waiting.is_empty() {
            self.runner.ending()
        } else {
            None
        }
    }

    /// Whether no piece may follow: the source has ended, or the ending is known.
    fn is_over(&self) -> bool
        ensures { result ≡ (self.now.ended || is_some (core_ending self.now)) }
    {
        self.so_far.ended || self.ending().is_some()
    }

    /// A piece of `len` bytes arrived at `instant`.
    ///
    /// Refuses, in this order, an empty piece, more than 2^40 bytes in all, and a piece after the
    /// source's end or once the ending is known. A refusal changes nothing.
    pub fn on_piece(&mut self, len: u64, instant: Micros) -> Result<(), ArrivalFault>
        requires room { kept_count self.old < 1024 }
        requires later { self.old.latest ≤ instant }
        ensures { HearsPiece self.old self.new len instant result }
    {
        let so_far = StreamPosition {
            ended: self.is_over(),
            ..self.so_far
        };
        so_far.with_piece(len, instant)?;
        self.waiting
            .push_back_reserved(WaitingPiece { len, instant });
        self.so_far.position += len;
        self.so_far.latest = instant;
        Ok(())
    }

    /// The source ended at `end`.
    pub fn on_end(&mut self, end: Micros)
        requires first { self.old.ended ≡ false }
        requires later { self.old.latest ≤ end }
        ensures { HearsEnd self.old self.new end }
    {
        self.so_far.ended = true;
        self.so_far.latest = end;
        if self.waiting.is_empty() && self.runner.is_idle() {
            self.runner.finish(end);
        } else {
            self.end = Some(end);
        }
    }

    /// What to do at `now`. Drops the pieces that bring no further slice. The piece of a written slice stays.
    pub fn on_clock(&mut self, now: Micros) -> Act
        requires { self.old.latest ≤ now }
        ensures answered { Answered self.old self.new now result }
        ensures stays { KeepsWritten self.old self.new result }
    {
        self.so_far.latest = now;
        self.look();
        self.answer(now)
    }

    /// What to do at `now`, after a look for the next slice.
    fn answer(&mut self, now: Micros) -> Act
        requires emptied { self.old.found ≡ None → IsEmptied self.old }
        requires latest { self.old.latest ≡ now }
        ensures answered { Answered self.old self.new now result }
        ensures stays { KeepsWritten self.old self.new result }
        ensures unknown { core_ending self.new ≡ None → known_ending self.old.runner ≡ None }
    {
        let Some(slice) = self.found else {
            return self.act_without_slice(now);
        };
        if slice.instant > now {
            return Act::WaitUntil(slice.instant);
        }
        self.found = None;
        Act::Write(slice)
    }

    /// Finds the next slice, unless it is found already.
    fn look(&mut self)
        ensures looked { Looked self.old self.new }
        ensures found { IsSome self.old.found → self.new ≡ self.old }
        ensures emptied { self.new.found ≡ None → IsEmptied self.new }
        ensures known { (last : _) → core_ending self.old ≡ Some last
            → core_ending self.new ≡ Some last }
    {
        if self.found.is_some() {
            return;
        }
        self.look_at_first();
        while self.found.is_none() {
            if !self.look_at_next() {
                return;
            }
        }
    }

    /// Looks for a slice in the piece that is with the runner, if there is one.
    fn look_at_first(&mut self)
        requires { self.old.found ≡ None }
        ensures looked { Looked self.old self.new }
        ensures drained { self.new.found ≡ None → IsDrained self.new }
        ensures known { (last : _) → core_ending self.old ≡ Some last
            → core_ending self.new ≡ Some last }
    {
        if self.runner.is_idle() {
            return;
        }
        self.found = self.runner.next_cut();
    }

    /// Looks for a slice in the next waiting piece. False where no piece waits.
    fn look_at_next(&mut self) -> bool
        requires found { self.old.found ≡ None }
        requires drained { IsDrained self.old }
        ensures looked { Looked self.old self.new }
        ensures more { IsTrue result → length self.new.waiting < length self.old.waiting }
        ensures none { result ≡ false → (self.new ≡ self.old) × (self.old.waiting ≡ []) }
        ensures drained { self.new.found ≡ None → IsDrained self.new }
    {
        let Some(piece) = take_front(&mut self.waiting) else {
            return false;
        };
        let Ok(()) = self.runner.offer(piece.len, piece.instant) else {
            return true;
        };
        self.found = self.runner.next_cut();
        true
    }

    /// What to do at `now` where no slice is left.
    fn act_without_slice(&mut self, now: Micros) -> Act
        requires emptied { IsEmptied self.old }
        requires latest { self.old.latest ≡ now }
        ensures act { result
            ≡ idle_act self.old.ended now (core_deadline self.old) (core_ending self.new) }
        ensures over { (last : EndingType) → result ≡ ActOf.End last → (items : List OneItem)
            → remaining_output self.new items ≡ final_of last ∷ [] }
        ensures settled { Settled self.old self.new now }
        ensures none { next_instant (remaining_output self.old (Quiet ∷ [])) ≡ None }
    {
        self.hand_on_end();
        match self.ending_at(now) {
            Some(ending) => Act::ending(&ending, now, self.so_far.ended),
            None => Act::until(self.deadline),
        }
    }

    /// Hands the source's end on to the runner, if it is kept.
    fn hand_on_end(&mut self)
        requires { IsEmptied self.old }
        ensures settled { HandsOnEnd self.old self.new }
    {
        if let Some(end) = self.end {
            self.end = None;
            self.runner.finish(end);
        }
    }

    /// The ending, where it is known or the deadline has passed.
    fn ending_at(&mut self, now: Micros) -> Option<Ending>
        requires emptied { IsEmptied self.old }
        requires end { self.old.end ≡ None }
        ensures value { result ≡ core_ending self.new }
        ensures only { IfSome result (λ last. (items : List OneItem)
            → remaining_output self.new items ≡ final_of last ∷ []) }
        ensures settled { Settled self.old self.new now }
    {
        if let Some(ending) = self.runner.ending() {
            return Some(ending);
        }
        let deadline = self.deadline?;
        if now < deadline {
            return None;
        }
        Some(self.runner.quiet())
    }
}
