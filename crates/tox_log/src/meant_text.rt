//! What a plan means for what a log heard, as a text.
ghost use Rattle.std.specs.Prelude.{◌≡◌, false, true, OnOk};
ghost use Rattle.tox_text.specs.Printing.{IsWorking, KeepsWorking};

use crate::event_line::LogLine;
use crate::heard_text::HeardFault;
use crate::open_log::OpenLog;
use std::alloc::Global;
use tox_compile::compile;
use tox_defs::Chain;
use tox_link::LinkEvent;
use tox_plan::Runner;
use tox_text::Part::{Number, Word};
use tox_text::{Printer, print_ending};
use tox_time::{EndFault, Ending, Micros, Sink, Slice, Source};

/// Prints what a chain means for what is left of a log, under the log's words. Without a chain it is the log's own.
///
/// It is a line for each longest run of bytes that came in one piece and leave at one instant, with their number, and a line for the
/// ending.
pub fn print_meant<R: Source, W: Sink>(
    alloc: Global,
    log: &mut OpenLog,
    reader: &mut R,
    writer: &mut W,
    chain: Option<&Chain>,
) -> Result<(), HeardFault>
    requires reads { R.failed reader.old ≡ false }
    requires works { W.failed writer.old ≡ false }
    ensures { OnOk result (W.failed writer.new ≡ false) }
{
    let words = log.words(alloc)?;
    let chain = chain.unwrap_or(log.chain());
    let mut runner = Runner::new(compile(chain, &words), &words);
    let mut printer = Printer::new(writer);
    print_lines(&mut printer, &mut runner, log, reader)?;
    printer.finish()?;
    Ok(())
}

/// Prints what leaves of the pieces that are left of a log, and the ending.
fn print_lines<R: Source, W: Sink>(
    printer: &mut Printer<'_, W>,
    runner: &mut Runner<'_>,
    log: &mut OpenLog,
    reader: &mut R,
) -> Result<(), HeardFault>
    requires reads { R.failed reader.old ≡ false }
    requires works { IsWorking W.Sink printer.old }
    requires idle { runner.old.idle ≡ true }
    ensures { OnOk result (KeepsWorking W.Sink printer.old printer.new) }
{
    let mut ending = None;
    for _ in 0..u64::MAX {
        let Some(line) = log.next_line(reader)? else {
            break;
        };
        match &line {
            LogLine::Event(LinkEvent::Piece(len, instant)) => {
                print_cuts(printer, runner, *len, instant)?;
            }
            LogLine::Event(LinkEvent::SourceEnd(instant)) | LogLine::SourceReset(instant) => {
                ending = Some(finish(runner, instant));
            }
            _ => {}
        }
    }
    let ending = ending.unwrap_or(runner.quiet());
    print_ending(printer, &ending)?;
    Ok(())
}

/// Finishes at the source's end.
fn finish(runner: &mut Runner<'_>, end: &Micros) -> Ending
    requires { runner.old.idle ≡ true }
    ensures { runner.new.idle ≡ true }
{
    let end = runner.latest().later(*end);
    runner.finish(end)
}

/// Offers a piece, and prints what then leaves. A piece behind the ending is skipped.
fn print_cuts<W: Sink>(
    printer: &mut Printer<'_, W>,
    runner: &mut Runner<'_>,
    len: u64,
    instant: &Micros,
) -> Result<(), EndFault>
    requires works { IsWorking W.Sink printer.old }
    requires idle { runner.old.idle ≡ true }
    ensures works { OnOk result (KeepsWorking W.Sink printer.old printer.new) }
    ensures idle { OnOk result (runner.new.idle ≡ true) }
{
    let Ok(()) = runner.offer(len, *instant) else {
        return Ok(());
    };
    for _ in 0..u64::MAX {
        let Some(slice) = runner.next_cut() else {
            return Ok(());
        };
        print_cut(printer, &slice)?;
    }
    Err(EndFault)
}

/// Prints the range, the instant and the length of a slice.
fn print_cut<W: Sink>(printer: &mut Printer<'_, W>, slice: &Slice) -> Result<(), EndFault>
    requires { IsWorking W.Sink printer.old }
    ensures { OnOk result (KeepsWorking W.Sink printer.old printer.new) }
{
    let parts = [
        Number(slice.instant.get()),
        Word(" "),
        Number(slice.span.start),
        Word(".."),
        Number(slice.span.stop),
        Word(" "),
        Number(slice.span.stop.saturating_sub(slice.span.start)),
        Word("\n"),
    ];
    printer.print(&parts)
}
