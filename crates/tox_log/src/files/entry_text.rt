//! The text of an entry.
ghost use Rattle.std.specs.Prelude.{◌≡◌, ◌++◌, Some, codes, false};
ghost use Rattle.tox_text.specs.Writing.{Writes};
ghost use Rattle.tox_log.specs.Lines.{line_words};
ghost use Rattle.tox_log.specs.files.EntryText.{entry_text};
ghost use Rattle.tox_log.specs.files.LogSteps.{state_behind};

use crate::files::entry::{Entry, Header};
use crate::files::log_state::LogState;
use crate::line_text::print_line;
use crate::{LogBytes, LogLine, print_header};
use tox_text::{LinePrinter, Printer};
use tox_time::EndFault;

/// Prints an entry behind what waits.
#[tactic(auto, unfolding(crate::specs::files::EntryText::entry_text))]
pub(crate) fn print_entry(waiting: &mut LogBytes, entry: &Entry<'_>) -> Result<(), EndFault>
    requires { waiting.old.1 ≡ false }
    ensures { Writes result (Some waiting.old.0) (Some waiting.new.0) waiting.new.1
        (entry_text entry.now) }
{
    match entry {
        Entry::Header(header) => write_header(waiting, header),
        Entry::Line(line) => write_line(waiting, line),
    }
}

/// Prints a header. It isn't inlined, so that a line needs no room for the large printer.
#[inline(never)]
#[tactic(auto, unfolding(crate::specs::files::EntryText::entry_text))]
fn write_header(waiting: &mut LogBytes, header: &Header<'_>) -> Result<(), EndFault>
    requires { waiting.old.1 ≡ false }
    ensures { Writes result (Some waiting.old.0) (Some waiting.new.0) waiting.new.1
        (entry_text (Entry.Header header.now)) }
{
    let Header { link, chain, names } = header;
    let mut printer = Printer::new(waiting);
    print_header(&mut printer, link, chain, names)?;
    printer.finish()
}

/// Prints a line behind the header.
fn write_line(waiting: &mut LogBytes, line: &LogLine) -> Result<(), EndFault>
    requires { waiting.old.1 ≡ false }
    ensures { Writes result (Some waiting.old.0) (Some waiting.new.0) waiting.new.1
        (line_words line.now ++ codes "\n") }
{
    let mut printer = LinePrinter::new(waiting);
    print_line(&mut printer, line)?;
    printer.finish()
}

/// How a log is that has all of an entry.
pub(crate) fn state_behind(entry: &Entry<'_>) -> LogState
    ensures { result ≡ state_behind entry.now }
{
    match entry {
        Entry::Line(line) if line.is_last() => LogState::Done,
        _ => LogState::Goes,
    }
}
