//! The second pass over an arrivals text: each data line becomes a piece, and its slices are printed at once.
ghost use Rattle.std.specs.Prelude.{◌≡◌, ◌+◌, ◌<◌, ◌≤◌, ◌^◌, ℕ, [], ◌∷◌, length, false, vec_capacity, IfOk, OnOk};
ghost use Rattle.std.specs.Result.{ForOk};
ghost use Rattle.tox_time.specs.streams.Arrivals.{arrival_list};
ghost use Rattle.tox_time.specs.declared.streams.item.Item.TheVariants.{Quiet};
ghost use Rattle.tox_lend.specs.Run.{stop_of};
ghost use Rattle.tox_text.specs.arrivals.ArrivalsText.{arrivals_of};
ghost use Rattle.tox_text.specs.arrivals.Checked.{IsChecked};
ghost use Rattle.tox_text.specs.Printing.{IsWorking, Prints};
ghost use Rattle.tox_text.specs.Writing.{Writes};
ghost use Rattle.tox_runs.specs.runs.SecondPass.{IsAtPiece, IsAtStart, PrintsDownTo, chunk_of};

use crate::runs::slice_source::SliceSource;
use tox_lend::Piece;
use tox_text::{Event, Printer, decode_into, first_line, line_of, print_ending};
use tox_time::{EndFault, Micros, Sink};

/// Prints what a piece gives. Its bytes are handed back for the next line.
fn print_data<S: SliceSource, W: Sink>(
    source: &mut S,
    printer: &mut Printer<'_, W>,
    piece: Piece,
) -> Result<Vec<u8>, EndFault>
    requires working { IsWorking W.Sink printer.old }
    requires few { stop_of piece ≤ 2 ^ 40 }
    requires next { IsAtPiece (S.stands source.old) piece }
    ensures prints { (at : IsAtPiece (S.stands source.old) piece)
        → PrintsDownTo W.Sink result printer.old printer.new
        (S.text_left source.old at.arrived (arrival_list (chunk_of piece ∷ at.later)))
        (S.text_left source.new at.arrived (arrival_list at.later)) }
    ensures stands { OnOk result ((at : IsAtPiece (S.stands source.old) piece)
        → S.stands source.new at.arrived (stop_of piece) at.later) }
    ensures room { IfOk result (λ spare. vec_capacity spare ≡ piece.room) }
{
    source.print_piece(printer, &piece)?;
    Ok(piece.bytes)
}

/// Prints the lines of all pieces of a text without faults, by a vector that has room for the bytes of each line.
fn print_lines<S: SliceSource, W: Sink>(
    source: &mut S,
    printer: &mut Printer<'_, W>,
    text: &[u8],
    spare: Vec<u8>,
) -> Result<(), EndFault>
    requires working { IsWorking W.Sink printer.old }
    requires checked { IsChecked text.now (vec_capacity spare) }
    requires first { IsAtStart (S.stands source.old) text.now }
    ensures prints { ForOk (arrivals_of text.now) (λ arrived.
        PrintsDownTo W.Sink result printer.old printer.new (S.text_left source.old arrived (arrival_list arrived.items))
        (S.text_left source.new arrived (Quiet ∷ []))) }
    ensures behind { OnOk result (ForOk (arrivals_of text.now)
        (λ arrived. (position : ℕ) × S.stands source.new arrived position [])) }
{
    let mut bytes = spare;
    let mut position = 0;
    let mut left = Some(text);
    while let Some(rest) = left {
        let (line, others) = first_line(rest);
        left = others;
        let Some(said) = line_of(line) else {
            continue;
        };
        match said.event {
            Event::Data(digits) => {
                decode_into(&mut bytes, digits);
                let piece = Piece {
                    start: position,
                    bytes,
                    instant: said.instant,
                };
                position += piece.bytes.len() as u64;
                bytes = print_data(source, printer, piece)?;
            }
            Event::Eof => source.end(said.instant),
        }
    }
    Ok(())
}

/// Prints the lines of all pieces, and then that of the ending.
fn print_text<S: SliceSource, W: Sink>(
    source: &mut S,
    printer: &mut Printer<'_, W>,
    text: &[u8],
    spare: Vec<u8>,
) -> Result<(), EndFault>
    requires working { IsWorking W.Sink printer.old }
    requires checked { IsChecked text.now (vec_capacity spare) }
    requires first { IsAtStart (S.stands source.old) text.now }
    ensures { ForOk (arrivals_of text.now) (λ arrived.
        Prints W.Sink result printer.old printer.new (S.text_left source.old arrived (arrival_list arrived.items))) }
{
    print_lines(source, printer, text, spare)?;
    let ending = source.last();
    print_ending(printer, &ending)
}

/// Writes the result text of a text without faults, by the slices of a source.
pub(crate) fn write_text<S: SliceSource, W: Sink>(
    source: &mut S,
    writer: &mut W,
    text: &[u8],
    spare: Vec<u8>,
) -> Result<(), EndFault>
    requires working { W.failed writer.old ≡ false }
    requires checked { IsChecked text.now (vec_capacity spare) }
    requires first { IsAtStart (S.stands source.old) text.now }
    ensures { ForOk (arrivals_of text.now) (λ arrived.
        Writes result (W.written writer.old) (W.written writer.new) (W.failed writer.new)
        (S.text_left source.old arrived (arrival_list arrived.items))) }
{
    let mut printer = Printer::new(writer);
    print_text(source, &mut printer, text, spare)?;
    printer.finish()
}
