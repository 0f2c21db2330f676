//! What a direction holds between two events.
ghost use Rattle.std.specs.Prelude.{◌≡◌, ℕ, List, IfOk, false};
ghost use Rattle.tox_compile.specs.Drawing.{plan_draws};
ghost use Rattle.tox_link.specs.Meaning.{MeansPlan};
ghost use Rattle.tox_link.specs.direction.Driven.{moved_of};
ghost use Rattle.tox_link.specs.direction.Follows.{HasRoomOf, IsHeld, IsNew};

use crate::direction::unwritten::{MAX_TOGETHER, Unwritten};
use crate::link_core::direction_core::{DirectionCore, room_of};
use crate::source_ending::SourceEnding;
use arrayvec::ArrayVec;
use std::alloc::{AllocError, Global};
use tox_compile::Plan;
use tox_lend::Window;
use tox_time::Micros;
use tox_words::Words;

/// One direction of a live link between two events: its core, the pieces that are still needed, and the slices that are being
/// written. It owns all that it needs, so it can be kept anywhere. Where its plan has no operation it stands under 512 bytes, and
/// holds at most one read.
#[derive(Drop)]
pub struct PolledLink {
    pub(crate) core: DirectionCore<'static>,
    pub(crate) window: Window,
    /// The slices that are being written, up to `written`.
    pub(crate) unwritten: ArrayVec<Unwritten, MAX_TOGETHER>,
    /// How the source ended, if its end came before the ending was known.
    pub(crate) source: SourceEnding,
    /// Whether nothing more is read.
    pub(crate) ended: bool,
    /// How many bytes are written.
    pub(crate) written: u64,
}

impl PolledLink {
    /// A direction under a plan, at which nothing has arrived. It keeps its words.
    ///
    /// # Errors
    ///
    /// Out of memory.
    pub fn new(alloc: Global, plan: Plan, words: Words) -> Result<PolledLink, AllocError>
        ensures meaning { IfOk result (λ link. MeansPlan plan words link.core) }
        ensures fresh { IfOk result IsNew }
        ensures held { IfOk result IsHeld }
        ensures room { IfOk result (HasRoomOf plan.ops) }
    {
        Ok(PolledLink {
            window: Window::new(alloc, room_of(&plan))?,
            core: DirectionCore::owning(alloc, plan, words)?,
            unwritten: ArrayVec::new(),
            source: SourceEnding::NotReached,
            ended: false,
            written: 0,
        })
    }

    /// A direction under a plan that draws no words, at which nothing has arrived. It keeps none but a table of one word.
    ///
    /// # Errors
    ///
    /// Out of memory.
    pub fn without_words(alloc: Global, plan: Plan) -> Result<PolledLink, AllocError>
        requires { plan_draws plan.ops ≡ false }
        ensures meaning { IfOk result (λ link. (words : List ℕ) → MeansPlan plan words link.core) }
        ensures fresh { IfOk result IsNew }
        ensures held { IfOk result IsHeld }
        ensures room { IfOk result (HasRoomOf plan.ops) }
    {
        let draws = plan.draws();
        prove!(!draws);
        let Ok(words) = Words::from_list(alloc, &[0]) else {
            return Err(AllocError);
        };
        PolledLink::new(alloc, plan, words)
    }

    /// Whether nothing more is read: the source has ended, or memory was refused to a read or its note.
    pub fn has_read_all(&self) -> bool
        ensures { result ≡ self.now.ended }
    {
        self.ended
    }

    /// How many bytes it took and wrote.
    pub(crate) fn moved(&self) -> u64
        requires { IsHeld self.now }
        ensures { result ≡ moved_of self.now }
    {
        self.window.stop() + self.written
    }

    /// The last reading of the clock that its core was given, 0 at first. Once it has ended, that at which it ended.
    pub fn latest(&self) -> Micros
        ensures { result ≡ self.now.core.latest }
    {
        self.core.latest()
    }

    /// How many bytes are written.
    pub fn written(&self) -> u64
        ensures { result ≡ self.now.written }
    {
        self.written
    }
}
