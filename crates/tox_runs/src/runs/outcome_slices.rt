//! The slices of an outcome, piece by piece.
ghost use Rattle.std.specs.Prelude.{◌≡◌, ◌<◌, length, IfSome, IfNone};
ghost use Rattle.tox_runs.specs.runs.OutcomeSlices.{IsJoined, StartsBehind};

use crate::runs::slice_source::SliceSource;
use tox_lend::Piece;
use tox_text::{Printer, print_lent};
use tox_time::{EndFault, Ending, Micros, Outcome, Sink, Slice};

/// The slices of an outcome that are left to print.
#[derive(Drop)]
pub(crate) struct OutcomeSlices<'a> {
    left: &'a [Slice],
    position: u64,
    ending: &'a Ending,
}

impl<'a> OutcomeSlices<'a> {
    pub(crate) fn new(outcome: &'a Outcome) -> OutcomeSlices<'a>
        ensures left { (result.left.now ≡ outcome.now.slices) × (result.position ≡ 0) }
        ensures ending { result.ending.now ≡ outcome.now.ending }
    {
        OutcomeSlices {
            left: outcome.slices.as_slice(),
            position: 0,
            ending: &outcome.ending,
        }
    }

    /// The next slices that start before `stop` and leave at one instant, as one.
    fn next_before(&mut self, stop: u64) -> Option<Slice>
        ensures some { IfSome result
            (λ slice. IsJoined stop self.old.left.now slice self.new.left.now
            × (self.new.position ≡ slice.span.stop)) }
        ensures shorter { IfSome result
            (λ slice. length self.new.left.now < length self.old.left.now) }
        ensures none { IfNone result
            ((self.new.left.now ≡ self.old.left.now) × (self.new.position ≡ self.old.position)
            × StartsBehind stop self.old.left.now) }
        ensures ending { self.new.ending.now ≡ self.old.ending.now }
    {
        let [first, others @ ..] = self.left else {
            return None;
        };
        if first.span.start >= stop {
            return None;
        }
        let mut joined = *first;
        self.left = others;
        while let [next, others @ ..] = self.left
            && next.span.start < stop
            && next.instant == joined.instant
        {
            joined.span.stop = next.span.stop;
            self.left = others;
        }
        self.position = joined.span.stop;
        Some(joined)
    }
}

impl<'a> SliceSource for OutcomeSlices<'a> {
    ghost use Rattle.tox_runs.specs.runs.OutcomeSlices.{IsPending, pending_text};

    ghost stands = { λ source arrived position items.
        IsPending source.left.now source.position arrived position items };

    ghost text_left = { λ source arrived items.
        pending_text arrived source.position source.left.now source.ending.now };

    fn print_piece<W: Sink>(
        &mut self,
        printer: &mut Printer<'_, W>,
        piece: &Piece,
    ) -> Result<(), EndFault> {
        let stop = piece.start + piece.bytes.len() as u64;
        while let Some(slice) = self.next_before(stop) {
            print_lent(printer, &piece.lend(slice.span, slice.instant))?;
        }
        Ok(())
    }

    fn end(&mut self, _instant: Micros) {}

    fn last(&mut self) -> Ending {
        *self.ending
    }
}
