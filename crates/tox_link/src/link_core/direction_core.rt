//! The core of a direction, by its plan: a `LinkCore`, or a few numbers where the plan has no operation.
ghost use Rattle.std.specs.Prelude.{◌≡◌, ◌+◌, ◌<◌, ◌≤◌, List, [], ◌∷◌, false, IfSome, IfOk};
ghost use Rattle.tox_time.specs.declared.streams.item.Item.{Item as OneItem};
ghost use Rattle.tox_time.specs.streams.Table.{final_of};
ghost use Rattle.tox_compile.specs.Meaning.{Ops};
ghost use Rattle.tox_link.specs.link_core.Core.{remaining_output, core_ending, kept_count};
ghost use Rattle.tox_link.specs.link_core.NewCore.{Begins, IsNewCore, room_of};
ghost use Rattle.tox_link.specs.link_core.Acts.{Answered, HearsPiece, HearsEnd};

use crate::link_core::act::Act;
use crate::link_core::plain_core::{PLAIN_PIECES, PlainCore};
use crate::link_core::{LinkCore, MAX_PIECES};
use std::alloc::{AllocError, Global};
use std::marker::Model;
use tox_compile::Plan;
use tox_time::{ArrivalFault, Ending, Micros};
use tox_words::Words;

/// How many pieces the core of a plan has room for.
pub(crate) fn room_of(plan: &Plan) -> usize
    ensures { result ≡ room_of plan.now.ops }
{
    match plan.ops() {
        [] => PLAIN_PIECES,
        _ => MAX_PIECES,
    }
}

/// Which core a direction has.
#[derive(Drop)]
pub(crate) enum CoreKind<'w> {
    Plain(PlainCore),
    Planned(Box<LinkCore<'w>>),
}

/// The core of one direction of a live link. Where the plan has no operation it is a few numbers, and has room for four pieces.
#[derive(Drop)]
pub(crate) struct DirectionCore<'w> {
    kind: CoreKind<'w>,
}

impl<'w> Model for DirectionCore<'w> {
    ghost use Rattle.tox_link.specs.link_core.Core.{CoreView};

    ghost Value = { CoreView };

    ghost use Rattle.tox_link.specs.link_core.DirectionInside.{direction_view};

    ghost view = { direction_view };
}

impl<'w> DirectionCore<'w> {
    /// A core of the plan. Nothing has arrived yet, and its last instant is 0.
    ///
    /// # Errors
    ///
    /// Out of memory.
    pub fn new(alloc: Global, plan: Plan, words: &'w Words) -> Result<DirectionCore<'w>, AllocError>
        ensures begins { IfOk result (Begins plan words.now) }
        ensures room { IfOk result (λ core. core.room ≡ room_of plan.ops) }
    {
        if let [] = plan.ops() {
            return Ok(DirectionCore::plain());
        }
        DirectionCore::planned(alloc, LinkCore::new(alloc, plan, words)?)
    }

    /// A core of the plan that keeps its words, if the plan has operations. Nothing has arrived yet, and its last instant is 0.
    ///
    /// # Errors
    ///
    /// Out of memory.
    pub fn owning(alloc: Global, plan: Plan, words: Words) -> Result<DirectionCore<'w>, AllocError>
        ensures begins { IfOk result (Begins plan words) }
        ensures room { IfOk result (λ core. core.room ≡ room_of plan.ops) }
    {
        if let [] = plan.ops() {
            return Ok(DirectionCore::plain());
        }
        DirectionCore::planned(alloc, LinkCore::owning(alloc, plan, words)?)
    }

    fn plain() -> DirectionCore<'w>
        ensures begins { (plan : Ops) (words : List _) → plan.ops ≡ [] → Begins plan words result }
        ensures room { result.room ≡ 4 }
    {
        DirectionCore {
            kind: CoreKind::Plain(PlainCore::new()),
        }
    }

    fn planned(alloc: Global, core: LinkCore<'w>) -> Result<DirectionCore<'w>, AllocError>
        ensures { IfOk result (λ direction. direction ≡ record core.entry { room = 1024 }) }
    {
        let core = Box::new(alloc, core)?;
        Ok(DirectionCore {
            kind: CoreKind::Planned(core),
        })
    }

    /// How many pieces it has room for beside those that it keeps.
    pub fn room_left(&self) -> usize
        ensures { result + kept_count self.now ≡ self.now.room }
    {
        match &self.kind {
            CoreKind::Plain(core) => core.room_left(),
            CoreKind::Planned(core) => core.room_left(),
        }
    }

    /// The last instant handed in, 0 at first.
    pub fn latest(&self) -> Micros
        ensures { result ≡ self.now.latest }
    {
        match &self.kind {
            CoreKind::Plain(core) => core.latest(),
            CoreKind::Planned(core) => core.latest(),
        }
    }

    /// How many cuts its runner gave: none where the plan has no operation.
    pub fn cuts(&self) -> u64
        ensures { result ≡ self.now.runner.cuts }
    {
        match &self.kind {
            CoreKind::Plain(core) => core.cuts(),
            CoreKind::Planned(core) => core.cuts(),
        }
    }

    /// The link's ending, once it is known and no piece is kept. Nothing else is then to come.
    pub fn ending(&self) -> Option<Ending>
        ensures value { result ≡ core_ending self.now }
        ensures only { IfSome result (λ last. (items : List OneItem)
            → remaining_output self.now items ≡ final_of last ∷ []) }
    {
        match &self.kind {
            CoreKind::Plain(core) => core.ending(),
            CoreKind::Planned(core) => core.ending(),
        }
    }

    /// A piece of `len` bytes arrived at `instant`. Refused as by [`LinkCore`](crate::LinkCore).
    pub fn on_piece(&mut self, len: u64, instant: Micros) -> Result<(), ArrivalFault>
        requires room { kept_count self.old < self.old.room }
        requires later { self.old.latest ≤ instant }
        ensures hears { HearsPiece self.old self.new len instant result }
        ensures small { self.old.room ≤ 1024 }
    {
        match &mut self.kind {
            CoreKind::Plain(core) => core.on_piece(len, instant),
            CoreKind::Planned(core) => core.on_piece(len, instant),
        }
    }

    /// The source ended at `end`.
    pub fn on_end(&mut self, end: Micros)
        requires first { self.old.ended ≡ false }
        requires later { self.old.latest ≤ end }
        ensures { HearsEnd self.old self.new end }
    {
        match &mut self.kind {
            CoreKind::Plain(core) => core.on_end(end),
            CoreKind::Planned(core) => core.on_end(end),
        }
    }

    /// What to do at `now`. Drops the pieces that bring no further slice.
    pub fn on_clock(&mut self, now: Micros) -> Act
        requires { self.old.latest ≤ now }
        ensures { Answered self.old self.new now result }
    {
        match &mut self.kind {
            CoreKind::Plain(core) => core.on_clock(now),
            CoreKind::Planned(core) => core.on_clock(now),
        }
    }
}
