//! What gives the slices of the arrived pieces: a plan's runner, or an outcome.
ghost use Rattle.std.specs.Prelude.{◌≡◌, ℕ, ◌≤◌, ◌^◌, List, [], ◌∷◌, OnOk};
ghost use Rattle.tox_time.specs.declared.streams.item.Item.{Item as OneItem};
ghost use Rattle.tox_time.specs.declared.streams.item.Item.TheVariants.{Closed, Quiet};
ghost use Rattle.tox_time.specs.streams.Arrivals.{arrival_list};
ghost use Rattle.tox_lend.specs.Run.{stop_of};
ghost use Rattle.tox_text.specs.arrivals.ArrivalsText.{Arrived};
ghost use Rattle.tox_text.specs.ResultText.{ending_line};
ghost use Rattle.tox_runs.specs.runs.SecondPass.{IsAtSourceEnd, IsAtPiece, IsBehindAll, PrintsDownTo, chunk_of};
ghost use Rattle.tox_text.specs.Printing.{IsWorking};

use tox_lend::Piece;
use tox_text::Printer;
use tox_time::{EndFault, Ending, Micros, Sink};

/// Prints the slices of each arrived piece in turn, and knows the link's ending behind the last one.
pub(crate) trait SliceSource {
    /// It stands at a position of what arrived, and these items come next.
    ghost stands: { Self → Arrived → ℕ → List OneItem → Type 0 };

    /// The text that is left to print, if these items come.
    ghost text_left: { Self → Arrived → List OneItem → List ℕ };

    /// Prints a line for each slice of the next piece.
    fn print_piece<W: Sink>(
        &mut self,
        printer: &mut Printer<'_, W>,
        piece: &Piece,
    ) -> Result<(), EndFault>
        requires working { IsWorking W.Sink printer.old }
        requires few { stop_of piece.now ≤ 2 ^ 40 }
        requires next { IsAtPiece (stands self.old) piece.now }
        ensures prints { (at : IsAtPiece (stands self.old) piece.now)
            → PrintsDownTo W.Sink result printer.old printer.new
            (text_left self.old at.arrived (arrival_list (chunk_of piece.now ∷ at.later)))
            (text_left self.new at.arrived (arrival_list at.later)) }
        ensures stands { OnOk result ((at : IsAtPiece (stands self.old) piece.now)
            → stands self.new at.arrived (stop_of piece.now) at.later) };

    /// The source ended behind the last piece.
    fn end(&mut self, instant: Micros)
        requires next { IsAtSourceEnd (stands self.old) instant }
        ensures stands { (at : IsAtSourceEnd (stands self.old) instant)
            → stands self.new at.arrived at.position at.later }
        ensures same { (at : IsAtSourceEnd (stands self.old) instant)
            → text_left self.new at.arrived (arrival_list at.later)
            ≡ text_left self.old at.arrived (arrival_list (Closed instant ∷ at.later)) };

    /// How the link ends behind the last item. If the source hasn't ended it stays quiet.
    fn last(&mut self) -> Ending
        requires behind { IsBehindAll (stands self.old) }
        ensures { (at : IsBehindAll (stands self.old))
            → text_left self.old at.arrived (Quiet ∷ []) ≡ ending_line result };
}
