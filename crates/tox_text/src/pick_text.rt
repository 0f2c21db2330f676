//! What a numbered connection meets.
ghost use Rattle.std.specs.Prelude.{◌≡◌, ◌≢◌, ◌≤◌, ◌++◌, false, true, codes, decimal, length, map, string_bytes, OnOk, OnErr, IfErr, Err};
ghost use Rattle.std.specs.Io.KnownBytes.{append_known};
ghost use Rattle.tox_words.specs.Draw.{draws_of};
ghost use Rattle.tox_text.specs.PickText.{applied_word, enabled_word, pick_lines, pick_text, picked_toxic_line, proxy_line, toxics_text};
ghost use Rattle.tox_text.specs.PrintingPick.{PickLeaves};
ghost use Rattle.tox_text.specs.Printing.{IsWorking, Prints};
ghost use Rattle.tox_text.specs.Writing.{Writes};

use crate::parts::Part::{Name, Number, Word};
use crate::printer::Printer;
use crate::short_form::print_short;
use std::alloc::Global;
use thiserror::Error;
use tox_config::ProxyDef;
use tox_defs::Entry;
use tox_script::Script;
use tox_time::{EndFault, Sink, Stream};
use tox_words::{Drawing, Words};

/// Why what a connection meets was not printed.
#[derive(Clone, Copy, Debug, PartialEq, Eq, Error)]
pub enum PrintPickFault {
    #[error("W0 OutOfMemory")]
    OutOfMemory,
    /// A write failed, or took nothing.
    #[error("L4 WriteFault")]
    WriteFault,
}

/// Writes what a connection of a proxy meets on a stream, as a pick text: a line for the proxy, and one for each toxic
/// of the script's chain, which is applied or skipped under the words of the seed.
///
/// Connections count from 1 to 1,000,000. Nothing is written after [`PrintPickFault::OutOfMemory`], and a prefix of the text
/// after [`PrintPickFault::WriteFault`].
pub fn print_pick<W: Sink>(
    alloc: Global,
    writer: &mut W,
    proxy: &ProxyDef,
    script: &Script,
    conn: u64,
    stream: Stream,
    seed: u64,
) -> Result<(), PrintPickFault>
    requires working { W.failed writer.old ≡ false }
    requires first { 1 ≤ conn }
    requires last { conn ≤ 1_000_000 }
    ensures ok { OnOk result
        (W.written writer.new
        ≡ append_known (W.written writer.old) (pick_text proxy.now script.now conn stream seed)) }
    ensures working { result ≢ Err PrintPickFault.WriteFault → W.failed writer.new ≡ false }
    ensures left { IfErr result
        (PickLeaves (W.written writer.old) (W.written writer.new) (W.failed writer.new)
        (pick_text proxy.now script.now conn stream seed)) }
{
    let Ok(words) = Words::from_seed(alloc, seed, conn, stream) else {
        return Err(PrintPickFault::OutOfMemory);
    };
    let name = proxy.name.as_str();
    let chain = script.chain(name, conn, stream);
    let names = script.names(name, conn, stream);
    let drawing = Drawing::new(chain.lanes(), &words);
    if write_pick(writer, proxy, &drawing, chain.entries(), names).is_err() {
        return Err(PrintPickFault::WriteFault);
    }
    Ok(())
}

/// Writes the lines of a proxy and of named toxics. After an `Err` a prefix of them is written.
fn write_pick<W: Sink>(
    writer: &mut W,
    proxy: &ProxyDef,
    drawing: &Drawing<'_>,
    entries: &[Entry],
    names: &[String],
) -> Result<(), EndFault>
    requires working { W.failed writer.old ≡ false }
    requires one_each { length names.now ≡ length entries.now }
    ensures { Writes result (W.written writer.old) (W.written writer.new) (W.failed writer.new)
        (pick_lines proxy.now (draws_of drawing.now) entries.now (map string_bytes names.now)) }
{
    let mut printer = Printer::new(writer);
    print_lines(&mut printer, proxy, drawing, entries, names)?;
    printer.finish()
}

fn print_lines<W: Sink>(
    printer: &mut Printer<'_, W>,
    proxy: &ProxyDef,
    drawing: &Drawing<'_>,
    entries: &[Entry],
    names: &[String],
) -> Result<(), EndFault>
    requires working { IsWorking W.Sink printer.old }
    requires one_each { length names.now ≡ length entries.now }
    ensures { Prints W.Sink result printer.old printer.new
        (pick_lines proxy.now (draws_of drawing.now) entries.now (map string_bytes names.now)) }
{
    print_proxy(printer, proxy)?;
    print_toxics(printer, drawing, entries, names)
}

/// Prints the line of a proxy.
fn print_proxy<W: Sink>(printer: &mut Printer<'_, W>, proxy: &ProxyDef) -> Result<(), EndFault>
    requires { IsWorking W.Sink printer.old }
    ensures { Prints W.Sink result printer.old printer.new (proxy_line proxy.now) }
{
    let parts = [
        Word("proxy "),
        Name(&proxy.name),
        Word(" listen "),
        Word(&proxy.listen),
        Word(" upstream "),
        Word(&proxy.upstream),
        Word(" "),
        Word(enabled_word(proxy.enabled)),
        Word("\n"),
    ];
    printer.print(&parts)
}

fn enabled_word(enabled: bool) -> &'static str
    ensures { result.now ≡ enabled_word enabled }
{
    if enabled { "enabled" } else { "disabled" }
}

/// Prints the lines of named toxics.
fn print_toxics<W: Sink>(
    printer: &mut Printer<'_, W>,
    drawing: &Drawing<'_>,
    entries: &[Entry],
    names: &[String],
) -> Result<(), EndFault>
    requires working { IsWorking W.Sink printer.old }
    requires one_each { length names.now ≡ length entries.now }
    ensures { Prints W.Sink result printer.old printer.new
        (toxics_text (draws_of drawing.now) entries.now (map string_bytes names.now)) }
{
    for (place, entry) in entries.iter().enumerate() {
        print_toxic(printer, drawing, place, entry, &names[place])?;
    }
    Ok(())
}

/// Prints the line of a named toxic at a place of its chain.
fn print_toxic<W: Sink>(
    printer: &mut Printer<'_, W>,
    drawing: &Drawing<'_>,
    place: usize,
    entry: &Entry,
    name: &str,
) -> Result<(), EndFault>
    requires { IsWorking W.Sink printer.old }
    ensures { Prints W.Sink result printer.old printer.new (picked_toxic_line (draws_of drawing.now) place entry.now name.now) }
{
    print_place(printer, place, entry.is_applied(place, drawing))?;
    print_short(printer, entry)?;
    printer.print(&[Word(" "), Name(name), Word("\n")])
}

/// Prints a place of a chain, and whether its toxic is applied.
fn print_place<W: Sink>(
    printer: &mut Printer<'_, W>,
    place: usize,
    applied: bool,
) -> Result<(), EndFault>
    requires { IsWorking W.Sink printer.old }
    ensures { Prints W.Sink result printer.old printer.new (decimal place ++ codes " " ++ applied_word applied ++ codes " ") }
{
    let parts = [
        Number(place as u64),
        Word(" "),
        Word(applied_word(applied)),
        Word(" "),
    ];
    printer.print(&parts)
}

fn applied_word(applied: bool) -> &'static str
    ensures { result.now ≡ applied_word applied }
{
    if applied { "applied" } else { "skipped" }
}
