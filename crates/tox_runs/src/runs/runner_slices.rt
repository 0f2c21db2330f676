//! The slices of a plan's runner, piece by piece.
ghost use Rattle.std.specs.Prelude.{◌<◌, ◌^◌, List, OnOk};
ghost use Rattle.tox_time.specs.declared.streams.item.Item.{Item as OneItem};
ghost use Rattle.tox_lend.specs.Run.{stop_of};
ghost use Rattle.tox_plan.specs.Cuts.{GivesAll};
ghost use Rattle.tox_plan.specs.Slices.{IsOffered};
ghost use Rattle.tox_text.specs.arrivals.ArrivalsText.{Arrived};
ghost use Rattle.tox_runs.specs.runs.RunnerSlices.{text_to_come};
ghost use Rattle.tox_runs.specs.runs.SecondPass.{IsPieceOf, PrintsDownTo};
ghost use Rattle.tox_text.specs.Printing.{IsWorking};

use crate::runs::slice_source::SliceSource;
use tox_lend::Piece;
use tox_plan::Runner;
use tox_text::{Printer, print_lent};
use tox_time::{EndFault, Ending, Micros, Sink};

impl<'w> SliceSource for Runner<'w> {
    ghost use Rattle.tox_runs.specs.runs.RunnerSlices.{MayComeNext, text_to_come};

    ghost stands = { λ runner arrived position items. MayComeNext runner items };

    ghost text_left = { λ runner arrived items. text_to_come arrived runner items };

    fn print_piece<W: Sink>(
        &mut self,
        printer: &mut Printer<'_, W>,
        piece: &Piece,
    ) -> Result<(), EndFault> {
        if self.offer(piece.bytes.len() as u64, piece.instant).is_ok() {
            print_cuts(self, printer, piece)?;
        }
        Ok(())
    }

    fn end(&mut self, instant: Micros) {
        self.finish(instant);
    }

    fn last(&mut self) -> Ending {
        match self.ending() {
            Some(ending) => ending,
            None => self.quiet(),
        }
    }
}

/// Prints a line for each slice of the offered piece.
fn print_cuts<W: Sink>(
    runner: &mut Runner<'_>,
    printer: &mut Printer<'_, W>,
    piece: &Piece,
) -> Result<(), EndFault>
    requires working { IsWorking W.Sink printer.old }
    requires offered { IsOffered runner.old piece.now }
    requires fits { stop_of piece.now < 2 ^ 64 }
    ensures prints { (arrived : Arrived) (items : List OneItem) → IsPieceOf arrived piece.now
        → PrintsDownTo W.Sink result printer.old printer.new (text_to_come arrived runner.old items)
        (text_to_come arrived runner.new items) }
    ensures all { OnOk result (GivesAll runner.old runner.new) }
{
    while let Some(slice) = runner.next_cut() {
        print_lent(printer, &piece.lend(slice.span, slice.instant))?;
    }
    Ok(())
}
