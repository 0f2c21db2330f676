//! What a log heard, as texts: its arrivals and its words.
ghost use Rattle.std.specs.Prelude.{◌≡◌, ◌*◌, ◌<◌, List, ◌++◌, decimal, false, IfErr, Ok, OnOk, length, map, replicate, slice_index};
ghost use Rattle.std.specs.Io.KnownBytes.{append_known};
ghost use Rattle.std.specs.List.{join_with_byte};
ghost use Rattle.tox_words.specs.Seeded.{seeded_words};
ghost use Rattle.tox_text.specs.Printing.{IsWorking, Prints};
ghost use Rattle.tox_text.specs.Writing.{Writes};
ghost use Rattle.tox_log.specs.HeardText.{AreLinesOf, LeavesText, WritesHeard, eof_line, heard_line, heard_text, is_write_fault, separator, words_line, zeros_line};
ghost use Rattle.tox_log.specs.Reading.{to_hand};
ghost use Rattle.tox_log.specs.declared.event_line.LogLine.{LogLine as AnyLine};

use crate::event_line::LogLine;
use crate::fault::LogFault;
use crate::open_log::OpenLog;
use std::alloc::Global;
use tox_link::LinkEvent;
use tox_text::Part::{Number, Word};
use tox_text::Printer;
use tox_time::{EndFault, Micros, Sink, Source};
use tox_words::Words;

/// Why a text of a log was not printed whole.
#[derive(Clone, Copy, Debug, PartialEq, Eq)]
pub enum HeardFault {
    Log(LogFault),
    /// A write failed, or took nothing.
    WriteFault,
}

impl From<EndFault> for HeardFault {
    ghost use Rattle.std.specs.Prelude.{◌≡◌};
    ghost use Rattle.tox_log.specs.declared.heard_text.HeardFault.TheVariants.{WriteFault};

    ghost from_gives = { λ _ fault. fault ≡ WriteFault };

    fn from(_error: EndFault) -> Self {
        HeardFault::WriteFault
    }
}

impl From<LogFault> for HeardFault {
    ghost use Rattle.std.specs.Prelude.{◌≡◌};
    ghost use Rattle.tox_log.specs.declared.heard_text.HeardFault.TheVariants.{Log};

    ghost from_gives = { λ error fault. fault ≡ Log error };

    fn from(error: LogFault) -> Self {
        HeardFault::Log(error)
    }
}

/// Prints what is left of a log as an arrivals text, its bytes as zeros.
pub fn print_heard<R: Source, W: Sink>(
    log: &mut OpenLog,
    reader: &mut R,
    writer: &mut W,
) -> Result<(), HeardFault>
    requires reads { R.failed reader.old ≡ false }
    requires works { W.failed writer.old ≡ false }
    ensures works { OnOk result (W.failed writer.new ≡ false) }
    ensures writes { OnOk result (WritesHeard (to_hand log.old (R.remaining reader.old))
        (W.written writer.old) (W.written writer.new)) }
    ensures fault { IfErr result (λ fault. W.failed writer.new ≡ is_write_fault fault) }
{
    let mut printer = Printer::new(writer);
    print_lines(&mut printer, log, reader)?;
    printer.finish()?;
    Ok(())
}

/// Prints what the lines that are left of a log heard.
fn print_lines<R: Source, W: Sink>(
    printer: &mut Printer<'_, W>,
    log: &mut OpenLog,
    reader: &mut R,
) -> Result<(), HeardFault>
    requires reads { R.failed reader.old ≡ false }
    requires works { IsWorking W.Sink printer.old }
    ensures prints { OnOk result ((lines : List AnyLine)
        × AreLinesOf (to_hand log.old (R.remaining reader.old)) lines
        × Prints W.Sink (Ok tt) printer.old printer.new (heard_text lines)) }
    ensures fault { IfErr result (λ fault.
        (W.failed printer.new.writer.now ≡ is_write_fault fault)
        × (printer.new.writer.ghost_name ≡ printer.old.writer.ghost_name)) }
{
    'lines: for _ in 0..u64::MAX {
        let Some(line) = log.next_line(reader)? else {
            return Ok(());
        };
        print_heard_line(printer, &line)?;
    }
    // More lines than a number can count: the log wasn't read to its end.
    Err(HeardFault::Log(LogFault::ReadFault))
}

/// Prints what a line heard.
fn print_heard_line<W: Sink>(printer: &mut Printer<'_, W>, line: &LogLine) -> Result<(), EndFault>
    requires { IsWorking W.Sink printer.old }
    ensures { Prints W.Sink result printer.old printer.new (heard_line line.now) }
{
    match line {
        LogLine::Event(LinkEvent::Piece(len, instant)) => print_piece(printer, *len, instant),
        LogLine::Event(LinkEvent::SourceEnd(instant)) => print_eof(printer, instant),
        LogLine::SourceReset(instant) => print_eof(printer, instant),
        LogLine::Event(LinkEvent::Wrote(_, _)) | LogLine::Last(_) => printer.print(&[]),
    }
}

/// Prints the source's end.
fn print_eof<W: Sink>(printer: &mut Printer<'_, W>, instant: &Micros) -> Result<(), EndFault>
    requires { IsWorking W.Sink printer.old }
    ensures { Prints W.Sink result printer.old printer.new (eof_line instant.now) }
{
    printer.print(&[Number(instant.get()), Word(" eof\n")])
}

/// Prints the arrival of so many bytes of zero.
fn print_piece<W: Sink>(
    printer: &mut Printer<'_, W>,
    len: u64,
    instant: &Micros,
) -> Result<(), EndFault>
    requires { IsWorking W.Sink printer.old }
    ensures { Prints W.Sink result printer.old printer.new (zeros_line len instant.now) }
{
    printer.print(&[Number(instant.get()), Word(" data ")])?;
    print_zeros(printer, len)?;
    printer.print(&[Word("\n")])
}

/// Prints so many bytes of zero in hexadecimal digits.
fn print_zeros<W: Sink>(printer: &mut Printer<'_, W>, len: u64) -> Result<(), EndFault>
    requires { IsWorking W.Sink printer.old }
    ensures { Prints W.Sink result printer.old printer.new (replicate (2 * len) 48) }
{
    for _ in 0..len {
        printer.print(&[Word("00")])?;
    }
    Ok(())
}

/// Prints the words of a log, separated by commas.
pub fn print_words<W: Sink>(alloc: Global, log: &OpenLog, writer: &mut W) -> Result<(), HeardFault>
    requires { W.failed writer.old ≡ false }
    ensures works { OnOk result (W.failed writer.new ≡ false) }
    ensures writes { OnOk result (W.written writer.new ≡ append_known (W.written writer.old)
        (words_line (seeded_words log.now.heading.seed log.now.heading.number
        log.now.heading.stream))) }
    ensures fault { IfErr result (LeavesText (W.written writer.old) (W.written writer.new)
        (W.failed writer.new) (words_line (seeded_words log.now.heading.seed
        log.now.heading.number log.now.heading.stream))) }
{
    let words = log.words(alloc)?;
    write_words(writer, &words)?;
    Ok(())
}

/// Writes the line of words.
fn write_words<W: Sink>(writer: &mut W, words: &Words) -> Result<(), EndFault>
    requires { W.failed writer.old ≡ false }
    ensures { Writes result (W.written writer.old) (W.written writer.new) (W.failed writer.new)
        (words_line words.now) }
{
    let mut printer = Printer::new(writer);
    print_words_line(&mut printer, words)?;
    printer.finish()
}

/// Prints the line of words.
fn print_words_line<W: Sink>(printer: &mut Printer<'_, W>, words: &Words) -> Result<(), EndFault>
    requires { IsWorking W.Sink printer.old }
    ensures { Prints W.Sink result printer.old printer.new (words_line words.now) }
{
    print_list(printer, words)?;
    printer.print(&[Word("\n")])
}

/// Prints words, separated by commas.
fn print_list<W: Sink>(printer: &mut Printer<'_, W>, words: &Words) -> Result<(), EndFault>
    requires { IsWorking W.Sink printer.old }
    ensures { Prints W.Sink result printer.old printer.new
        (join_with_byte 44 (map decimal words.now)) }
{
    for index in 0..words.len() {
        print_word(printer, words, index)?;
    }
    Ok(())
}

/// Prints the word at an index, behind a comma unless it is the first.
fn print_word<W: Sink>(
    printer: &mut Printer<'_, W>,
    words: &Words,
    index: usize,
) -> Result<(), EndFault>
    requires works { IsWorking W.Sink printer.old }
    requires within { index < length words.now }
    ensures { Prints W.Sink result printer.old printer.new
        (separator index ++ decimal (slice_index words.now index)) }
{
    let word = words.draw(index % 16, (index / 16) as u64);
    printer.print(&[Word(separator(index)), Number(u64::from(word))])
}

/// What stands before the element at an index of a list.
fn separator(index: usize) -> &'static str
    ensures { result.now ≡ separator index }
{
    if index == 0 { "" } else { "," }
}
