//! What happens on a drawn link: what arrives, and what leaves by its plan.
ghost use Rattle.std.specs.Prelude.{◌≡◌, ◌∷◌, [], None, false, true, IfOk};
ghost use Rattle.tox_time.specs.declared.streams.item.Item.TheVariants.{Quiet};
ghost use Rattle.tox_time.specs.streams.Table.{final_of};
ghost use Rattle.tox_plan.specs.Cuts.{GivesAll};
ghost use Rattle.tox_plan.specs.RunnerView.{to_come};
ghost use Rattle.tox_draw.specs.declared.frame.Frame.{Frame as OneFrame};
ghost use Rattle.tox_draw.specs.Frames.{IsFrame};
ghost use Rattle.tox_draw.specs.Lines.{IsStrand, PassesBytes};
ghost use Rattle.tox_draw.specs.Planning.{DrawsCuts, DrawsPiece, DrawsSourceEnd};

use crate::frame::Frame;
use crate::strand::Strand;
use std::alloc::{AllocError, Global};
use tox_plan::Runner;
use tox_time::{Ending, Micros};

/// What arrived so far, and what left by the plan.
#[derive(Drop)]
pub(crate) struct Strands {
    pub(crate) arrived: Strand,
    pub(crate) planned: Strand,
    pub(crate) source_end: Option<Micros>,
    /// Whether the source's end was a reset by its peer.
    pub(crate) source_reset: bool,
}

impl Strands {
    /// Nothing happened yet.
    pub(crate) fn new(alloc: Global) -> Result<Strands, AllocError>
        ensures ended { IfOk result
            (λ strands. (strands.source_end ≡ None) × (strands.source_reset ≡ false)) }
        ensures drawn { IfOk result (λ strands. (frame : OneFrame)
            → IsStrand frame [] strands.arrived × IsStrand frame [] strands.planned) }
    {
        Ok(Strands {
            arrived: Strand::new(alloc)?,
            planned: Strand::new(alloc)?,
            source_end: None,
            source_reset: false,
        })
    }

    /// A piece arrives, and what it brings leaves. Behind the link's ending nothing leaves any more.
    pub(crate) fn take_piece(
        &mut self,
        runner: &mut Runner<'_>,
        frame: &Frame,
        len: u64,
        instant: &Micros,
    )
        requires frame { IsFrame frame.now }
        requires idle { runner.old.idle ≡ true }
        ensures idle { runner.new.idle ≡ true }
        ensures arrived { PassesBytes frame.now len instant.now self.old.arrived self.new.arrived }
        ensures due { DrawsPiece frame.now self.old.planned runner.old len instant.now
            self.new.planned runner.new }
        ensures kept { (self.new.source_end ≡ self.old.source_end)
            × (self.new.source_reset ≡ self.old.source_reset) }
    {
        self.arrived.add(frame, len, instant);
        if runner.offer(len, *instant).is_err() {
            return;
        }
        take_cuts(&mut self.planned, runner, frame);
    }

    /// The source ends, by a reset or not.
    pub(crate) fn take_end(&mut self, runner: &mut Runner<'_>, instant: &Micros, is_reset: bool)
        requires { runner.old.idle ≡ true }
        ensures idle { runner.new.idle ≡ true }
        ensures ended { self.new
            ≡ record self.old { source_end = Some instant.now; source_reset = is_reset } }
        ensures due { (frame : OneFrame)
            → DrawsSourceEnd frame self.old.planned runner.old instant.now runner.new }
    {
        self.source_end = Some(*instant);
        self.source_reset = is_reset;
        let end = runner.latest().later(*instant);
        runner.finish(end);
    }

    /// The greatest instant of what happened, and of an ending.
    pub(crate) fn latest(&self, ending: &Option<Micros>) -> Micros {
        let passed = self.arrived.last.later(self.planned.last);
        let ended = self.source_end.unwrap_or(Micros::ZERO);
        passed.later(ended).later(ending.unwrap_or(Micros::ZERO))
    }
}

/// What a runner gives of the offered piece leaves.
fn take_cuts(planned: &mut Strand, runner: &mut Runner<'_>, frame: &Frame)
    requires { IsFrame frame.now }
    ensures all { GivesAll runner.old runner.new }
    ensures due { DrawsCuts frame.now planned.old runner.old planned.new runner.new }
{
    while let Some(slice) = runner.next_cut() {
        let span = slice.span;
        planned.add(frame, span.stop.saturating_sub(span.start), &slice.instant);
    }
}

/// How the plan ends the link.
pub(crate) fn ending_of(runner: &mut Runner<'_>) -> Ending
    requires { runner.old.idle ≡ true }
    ensures { to_come runner.old (Quiet ∷ []) ≡ final_of result ∷ [] }
{
    match runner.ending() {
        Some(ending) => ending,
        None => runner.quiet(),
    }
}
