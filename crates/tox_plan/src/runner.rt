//! The runner of a plan: pieces in, slices out, one at a time.
ghost use Rattle.std.specs.Prelude.{◌≡◌, ◌≢◌, ℕ, ◌+◌, ◌*◌, ◌^◌, ◌≤◌, ◌↔◌, ◌⊎◌, List, [], ◌∷◌, length, true, false, None, Some, IsSome, IsNone, IfSome, IfNone, OnOk, OnErr};
ghost use Rattle.tox_time.specs.declared.streams.item.Item.{Item as OneItem};
ghost use Rattle.tox_time.specs.declared.streams.item.Item.TheVariants.{Closed, Quiet};
ghost use Rattle.tox_time.specs.streams.Table.{final_of};
ghost use Rattle.tox_defs.specs.operations.Look.{as_chunk};
ghost use Rattle.tox_compile.specs.Meaning.{deadline_of};
ghost use Rattle.tox_plan.specs.OpCursors.{ops_of};
ghost use Rattle.tox_plan.specs.RunnerView.{to_come, HasNoChunk, known_ending, next_piece, offer_answer, with_offer};
ghost use Rattle.tox_plan.specs.Cuts.{IsOneCut, GivesCut, GivesNoCut, GivesNoMore, KeepsOffers};
ghost use Rattle.tox_plan.specs.Given.{GoesOn, GivesMeaning};
ghost use Rattle.tox_plan.specs.NewRunner.{IsNewRunner};
ghost use Rattle.tox_plan.specs.Unended.{IsBeforeDeadline, IsUnended, LeavesPastDeadline};

mod counts;

use crate::cursor_endings::{ending_of_read, last_of};
use crate::phase::Phase;
use crate::pulling::{PullStats, pull};
use crate::starting::push_cursors;
use arrayvec::ArrayVec;
use std::marker::Model;
use tox_compile::Plan;
use tox_defs::{Emission, MAX_TOXICS, OpCursor};
use tox_time::{ArrivalFault, Ending, Micros, Slice, Span, StreamPosition};
use tox_words::{Drawing, Words};

/// A plan at work on one stream: it is offered pieces one at a time, and cuts them into slices.
///
/// It keeps one end, one instant and a few numbers for each operation: no queue, and no list of items.
#[derive(Drop)]
pub struct Runner<'w> {
    cursors: ArrayVec<OpCursor, MAX_TOXICS>,
    drawing: Drawing<'w>,
    position: u64,
    piece: Slice,
    latest: Micros,
    lookahead: Option<Slice>,
    phase: Phase,
    looks: PullStats,
    cuts: u64,
    pieces: u64,
}

impl<'w> Model for Runner<'w> {
    ghost use Rattle.tox_plan.specs.RunnerView.{RunnerView};

    ghost Value = { RunnerView };

    ghost use Rattle.tox_plan.specs.RunnerInside.{runner_view, KeepsRunner};

    ghost view = { runner_view };

    ghost invariant = { KeepsRunner };
}

impl<'w> Runner<'w> {
    /// A runner of the plan. Nothing was offered yet.
    pub fn new(plan: Plan, words: &'w Words) -> Runner<'w>
        ensures { IsNewRunner plan words.now result }
    {
        let drawing = Drawing::new(plan.lanes(), words);
        Runner::drawing_from(drawing, plan)
    }

    /// A runner of the plan that keeps its words. Nothing was offered yet.
    pub fn owning(plan: Plan, words: Words) -> Runner<'w>
        ensures { IsNewRunner plan words result }
    {
        let drawing = Drawing::owning(plan.lanes(), words);
        Runner::drawing_from(drawing, plan)
    }

    /// A runner of the plan that draws from this table. Nothing was offered yet.
    fn drawing_from(drawing: Drawing<'w>, plan: Plan) -> Runner<'w>
        requires { drawing.lanes ≡ plan.lanes }
        ensures { IsNewRunner plan drawing.entry.words result }
    {
        let mut cursors = ArrayVec::new();
        push_cursors(&mut cursors, plan.ops());
        let ending = ending_of_read(&cursors);
        Runner {
            cursors,
            drawing,
            position: 0,
            piece: Slice {
                span: Span { start: 0, stop: 0 },
                instant: Micros::ZERO,
            },
            latest: Micros::ZERO,
            lookahead: None,
            phase: Phase::first(&ending),
            looks: PullStats {
                turns: 0,
                ended: ending.is_some(),
            },
            cuts: 0,
            pieces: 0,
        }
    }

    /// Whether nothing was offered yet, or `next_cut` has returned None since the last accepted offer.
    pub fn is_idle(&self) -> bool
        ensures value { result ≡ self.now.idle }
        ensures drained { self.now.idle ≡ true → HasNoChunk (to_come self.now (Quiet ∷ [])) }
    {
        self.phase.is_idle()
    }

    /// Offers the next piece of `len` bytes, which arrives at `instant`.
    ///
    /// Refuses, in this order, an instant below the last one, an empty piece, more than 2^40 bytes in all, and a piece
    /// once the ending is known. A refusal changes nothing.
    pub fn offer(&mut self, len: u64, instant: Micros) -> Result<(), ArrivalFault>
        requires { self.old.idle ≡ true }
        ensures answer { result ≡ offer_answer self.old len instant }
        ensures offered { OnOk result (self.new ≡ with_offer self.old len instant) }
        ensures unread { OnOk result (self.new.position ≡ self.new.piece.span.start) }
        ensures to_come { OnOk result
            ((items : List OneItem)
            → to_come self.new items
            ≡ to_come self.old (as_chunk (next_piece self.old len instant) ∷ items)) }
        ensures given { OnOk result
            (GoesOn self.old (as_chunk (next_piece self.old len instant) ∷ []) [] self.new) }
        ensures err { OnErr result (self.new ≡ self.old) }
    {
        let start = self.piece.span.stop;
        let offered = StreamPosition {
            position: start,
            latest: self.latest,
            ended: self.phase.ending().is_some(),
        };
        offered.with_piece(len, instant)?;
        self.piece = Slice {
            span: Span {
                start,
                stop: start + len,
            },
            instant,
        };
        self.latest = instant;
        self.pieces += 1;
        self.phase = self.phase.after_offer();
        Ok(())
    }

    /// The next slice of the offered piece: all that is left of it at one instant. None exactly when nothing is left;
    /// the runner is then idle. Looks at each operation at most once for each cut that it gives, and once more.
    pub fn next_cut(&mut self) -> Option<Slice>
        ensures some { IfSome result (GivesCut self.old self.new) }
        ensures none { IsNone result ↔ HasNoChunk (to_come self.old (Quiet ∷ [])) }
        ensures idle { IfNone result (GivesNoCut self.old self.new) }
        ensures kept { KeepsOffers self.old self.new }
        ensures turns { self.new.turns + length self.old.cursors * self.old.cuts
            ≤ self.old.turns + length self.old.cursors * (self.new.cuts + 1) }
        ensures given { GivesMeaning self.old self.new result }
    {
        let mut slice = self.cut()?;
        while let Some(stop) = self.cut_at(&slice.instant) {
            slice.span.stop = stop;
        }
        Some(slice)
    }

    /// The next cut, not joined to its neighbours. If none is left the runner is then idle.
    fn cut(&mut self) -> Option<Slice>
        ensures some { IfSome result
            (λ cut. IsOneCut self.old self.new cut × (self.new.idle ≡ false)) }
        ensures none { IsNone result ↔ HasNoChunk (to_come self.old (Quiet ∷ [])) }
        ensures idle { IfNone result (GivesNoCut self.old self.new) }
        ensures turns { self.new.turns ≤ self.old.turns + length self.old.cursors }
        ensures kept { KeepsOffers self.old self.new }
    {
        self.look();
        let Some(cut) = self.lookahead else {
            self.phase = self.phase.after_all();
            return None;
        };
        self.give(&cut);
        Some(cut)
    }

    /// Gives the next cut if it leaves at this instant, and returns where it stops.
    fn cut_at(&mut self, instant: &Micros) -> Option<u64>
        ensures some { IfSome result (λ stop. IsOneCut self.old self.new (record {
          span = record { start = self.old.position; stop = stop };
          instant = instant.now;
        })) }
        ensures none { IfNone result (GivesNoMore instant.now self.old self.new) }
        ensures idle { self.new.idle ≡ self.old.idle }
        ensures turns { self.new.turns ≤ self.old.turns + length self.old.cursors }
        ensures kept { KeepsOffers self.old self.new }
    {
        self.look();
        let cut = self.lookahead?;
        if cut.instant != *instant {
            return None;
        }
        self.give(&cut);
        Some(cut.span.stop)
    }

    /// Gives the found cut.
    fn give(&mut self, cut: &Slice)
        requires { self.old.lookahead ≡ Some cut.now }
        ensures cut { IsOneCut self.old self.new cut.now }
        ensures same { (self.new.idle ≡ self.old.idle) × (self.new.turns ≡ self.old.turns) }
        ensures kept { KeepsOffers self.old self.new }
    {
        self.lookahead = None;
        self.position = cut.span.stop;
        self.cuts += 1;
    }

    /// Finds the next cut, where it isn't found yet and one may be left.
    fn look(&mut self)
        ensures found { IsNone self.new.lookahead → self.new.drained ≡ true }
        ensures to_come { (items : List OneItem) → to_come self.new items ≡ to_come self.old items }
        ensures same { (self.new.position ≡ self.old.position) × (self.new.cuts ≡ self.old.cuts)
            × (self.new.idle ≡ self.old.idle) }
        ensures turns { self.new.turns ≤ self.old.turns + length self.old.cursors }
        ensures kept { KeepsOffers self.old self.new }
    {
        if self.phase.is_drained() || self.lookahead.is_some() {
            return;
        }
        match pull(
            &mut self.cursors,
            self.position,
            &self.piece,
            &self.drawing,
            &mut self.looks,
        ) {
            Some(Emission::Piece(cut)) => {
                let last = cut.span.stop == self.piece.span.stop && !self.looks.ended;
                self.phase = self.phase.after_cut(last);
                self.lookahead = Some(cut);
            }
            Some(Emission::End(ending)) => {
                self.phase = self.phase.after_end(&ending);
            }
            None => self.phase = self.phase.after_cut(true),
        }
    }

    /// Finishes at the source's end. Returns the link's ending. The last instant is then `end`.
    pub fn finish(&mut self, end: Micros) -> Ending
        requires idle { self.old.idle ≡ true }
        requires later { self.old.latest ≤ end }
        ensures last { to_come self.old (Closed end ∷ []) ≡ final_of result ∷ [] }
        ensures ended { self.new
            ≡ record self.old { ending = Some result; finished = true; latest = end } }
    {
        let ending = self.end_with(&Ending::Closed(end));
        self.latest = end;
        ending
    }

    /// Finishes without an end of the source. Returns the link's ending. If the plan has a deadline, that is the ending
    /// whatever arrives at or after it.
    pub fn quiet(&mut self) -> Ending
        requires { self.old.idle ≡ true }
        ensures last { to_come self.old (Quiet ∷ []) ≡ final_of result ∷ [] }
        ensures ended { self.new ≡ record self.old { ending = Some result; finished = true } }
        ensures deadline { LeavesPastDeadline self.old (final_of result ∷ []) }
    {
        self.end_with(&Ending::StillOpen)
    }

    fn end_with(&mut self, ending: &Ending) -> Ending
        requires { self.old.idle ≡ true }
        ensures last { to_come self.old (final_of ending.now ∷ []) ≡ final_of result ∷ [] }
        ensures ended { self.new ≡ record self.old { ending = Some result; finished = true } }
        ensures deadline { LeavesPastDeadline self.old (to_come self.old (Quiet ∷ [])) }
    {
        let last = &match self.phase.ending() {
            Some(known) => known,
            None => last_of(&self.cursors, ending),
        };
        self.phase = self.phase.after_finish(last);
        *last
    }

    /// The link's ending. It is known once the runner is idle and the source has ended, or an operation has given its
    /// final: even where nothing more arrives, that final is still to come. Nothing else is then to come. Until it is
    /// known, the link hasn't ended before the plan's deadline.
    pub fn ending(&self) -> Option<Ending>
        ensures value { result ≡ known_ending self.now }
        ensures known { IsSome result
            ↔ ((self.now.idle ≡ true) × ((self.now.finished ≡ true) ⊎ (to_come self.now [] ≢ []))) }
        ensures only { IfSome result
            (λ ending. (items : List OneItem) → to_come self.now items ≡ final_of ending ∷ []) }
        ensures unended { result ≡ None → self.now.idle ≡ true → (now : ℕ)
            → IsBeforeDeadline now (deadline_of (ops_of self.now.cursors))
            → IsUnended (ops_of self.now.cursors) (to_come self.now) now }
    {
        if self.phase.is_idle() {
            self.phase.ending()
        } else {
            None
        }
    }
}
