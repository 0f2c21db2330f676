//! The header of a log.
ghost use Rattle.std.specs.Prelude.{◌≡◌, length, map};
ghost use Rattle.tox_text.specs.Names.{visible_name};
ghost use Rattle.tox_text.specs.Printing.{IsWorking, Prints};
ghost use Rattle.tox_log.specs.HeaderText.{header_text, heading_lines, printed_name, toxic_line, toxic_lines};

use tox_defs::{Chain, Entry};
use tox_text::Part::{Name, Number, Word};
use tox_text::{Printer, print_short};
use tox_time::{EndFault, Sink, Stream};
use tox_words::Lanes;

/// The stream of a link that a log is of, and the seed of its words.
#[derive(Clone, Copy, Debug, PartialEq, Eq)]
pub struct LoggedLink<'a> {
    /// The proxy's name.
    pub proxy: &'a str,
    /// The link's number, from 1.
    pub number: u64,
    pub stream: Stream,
    pub seed: u64,
}

/// Prints the header of the log of a link's stream: three lines, and a line for each toxic of the stream's chain, applied or not.
pub fn print_header<W: Sink>(
    printer: &mut Printer<'_, W>,
    link: &LoggedLink<'_>,
    chain: &Chain,
    names: &[String],
) -> Result<(), EndFault>
    requires working { IsWorking W.Sink printer.old }
    requires one_each { length names.now ≡ length chain.now.entries }
    ensures { Prints W.Sink result printer.old printer.new
        (header_text (visible_name link.now.proxy.now) link.now.number link.now.stream
        link.now.seed chain.now (map printed_name names.now)) }
{
    print_heading(printer, link, chain.lanes())?;
    print_toxics(printer, chain.entries(), names)
}

/// Prints the first three lines.
fn print_heading<W: Sink>(
    printer: &mut Printer<'_, W>,
    link: &LoggedLink<'_>,
    lanes: Lanes,
) -> Result<(), EndFault>
    requires { IsWorking W.Sink printer.old }
    ensures { Prints W.Sink result printer.old printer.new
        (heading_lines (visible_name link.now.proxy.now) link.now.number link.now.stream lanes
        link.now.seed) }
{
    let parts = [
        Word("toxi log 1\n"),
        Word("link "),
        Name(link.proxy),
        Word(" "),
        Number(link.number),
        Word(" "),
        Word(link.stream.name()),
        Word("\n"),
        Word("lanes "),
        Number(lanes.count() as u64),
        Word(" seed "),
        Number(link.seed),
        Word("\n"),
    ];
    printer.print(&parts)
}

/// Prints the lines of named toxics.
fn print_toxics<W: Sink>(
    printer: &mut Printer<'_, W>,
    entries: &[Entry],
    names: &[String],
) -> Result<(), EndFault>
    requires working { IsWorking W.Sink printer.old }
    requires one_each { length names.now ≡ length entries.now }
    ensures { Prints W.Sink result printer.old printer.new (toxic_lines entries.now (map printed_name names.now)) }
{
    for (place, entry) in entries.iter().enumerate() {
        print_toxic(printer, entry, &names[place])?;
    }
    Ok(())
}

/// Prints the line of a named toxic.
fn print_toxic<W: Sink>(
    printer: &mut Printer<'_, W>,
    entry: &Entry,
    name: &str,
) -> Result<(), EndFault>
    requires { IsWorking W.Sink printer.old }
    ensures { Prints W.Sink result printer.old printer.new (toxic_line entry.now (visible_name name.now)) }
{
    printer.print(&[Word("toxic ")])?;
    print_short(printer, entry)?;
    printer.print(&[Word(" "), Name(name), Word("\n")])
}
