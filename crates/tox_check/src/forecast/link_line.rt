//! The lines of a link.
ghost use Rattle.std.specs.Prelude.{◌≡◌, ◌+◌, ◌<◌, ◌^◌, ◌≤◌, ◌++◌, length, map, string_bytes};
ghost use Rattle.std.specs.Option.{ForSome};
ghost use Rattle.tox_time.specs.declared.streams.stream.Stream.TheVariants.{Upstream as Up, Downstream as Down};
ghost use Rattle.tox_text.specs.Printing.{IsWorking, Prints};
ghost use Rattle.tox_check.specs.forecast.ForecastText.{has_wanted, is_asked, line_head, line_in, place_text, places_text, stream_line, wanted_line};
ghost use Rattle.tox_check.specs.forecast.Objects.{rule_number};

use crate::forecast::flags::{LinkFlags, meets_name};
use crate::forecast::object::print_stream_object;
use crate::forecast::question::Question;
use tox_script::{Chains, NamedChain};
use tox_text::Part::{Number, Word};
use tox_text::Printer;
use tox_time::{EndFault, Sink, Stream};

/// A connection of a proxy, and the rule that it meets, by its number from 0.
#[derive(Clone, Copy)]
pub(crate) struct Met<'a> {
    pub(crate) proxy: &'a str,
    pub(crate) conn: u64,
    pub(crate) rule: Option<usize>,
    pub(crate) ghost numbered: { ForSome rule (λ number. number + 1 < 2 ^ 64) },
}

/// Prints the wanted lines of a connection that meets these toxics.
pub(crate) fn print_link<W: Sink>(
    printer: &mut Printer<'_, W>,
    question: &Question<'_>,
    met: &Met<'_>,
    chains: &Chains,
    flags: &LinkFlags,
) -> Result<(), EndFault>
    requires working { IsWorking W.Sink printer.old }
    requires upstream { length flags.now.upstream.items ≤ 32 }
    requires downstream { length flags.now.downstream.items ≤ 32 }
    ensures { Prints W.Sink result printer.old printer.new
        (wanted_line question.now met.now.proxy.now met.now.conn Up met.now.rule
        chains.now.upstream.names flags.now.upstream.items
        ++ wanted_line question.now met.now.proxy.now met.now.conn Down met.now.rule
        chains.now.downstream.names flags.now.downstream.items) }
{
    let up = Stream::Upstream;
    print_wanted(printer, question, met, up, chains.on(up), flags.on(up))?;
    let down = Stream::Downstream;
    print_wanted(
        printer,
        question,
        met,
        down,
        chains.on(down),
        flags.on(down),
    )
}

/// Prints the line of a connection's stream, if it is wanted.
fn print_wanted<W: Sink>(
    printer: &mut Printer<'_, W>,
    question: &Question<'_>,
    met: &Met<'_>,
    stream: Stream,
    toxics: &NamedChain,
    flags: &[bool],
) -> Result<(), EndFault>
    requires working { IsWorking W.Sink printer.old }
    requires few { length flags.now ≤ 32 }
    ensures { Prints W.Sink result printer.old printer.new
        (wanted_line question.now met.now.proxy.now met.now.conn stream met.now.rule
        toxics.now.names flags.now) }
{
    if is_asked(question.stream, stream) && has_wanted(question.named, toxics.names(), flags) {
        print_line(printer, question.json, met, stream, flags)
    } else {
        Ok(())
    }
}

/// Whether lines of a stream are wanted.
fn is_asked(asked: Option<Stream>, stream: Stream) -> bool
    ensures { result ≡ is_asked asked stream }
{
    match asked {
        None => true,
        Some(asked) => asked == stream,
    }
}

/// Whether an applied toxic has the wanted name, if one is wanted.
fn has_wanted(named: Option<&str>, names: &[String], flags: &[bool]) -> bool
    ensures { result ≡ has_wanted named.entry (map string_bytes names.now) flags.now }
{
    match named {
        None => true,
        Some(name) => meets_name(name, names, flags),
    }
}

/// Prints the line of a connection's stream, in words or as an object of JSON.
fn print_line<W: Sink>(
    printer: &mut Printer<'_, W>,
    json: bool,
    met: &Met<'_>,
    stream: Stream,
    flags: &[bool],
) -> Result<(), EndFault>
    requires working { IsWorking W.Sink printer.old }
    requires few { length flags.now ≤ 32 }
    ensures { Prints W.Sink result printer.old printer.new
        (line_in json met.now.proxy.now met.now.conn stream met.now.rule flags.now) }
{
    if json {
        print_stream_object(printer, met, stream, flags)
    } else {
        print_words(printer, met, stream, flags)
    }
}

/// Prints the line of a connection's stream in words.
fn print_words<W: Sink>(
    printer: &mut Printer<'_, W>,
    met: &Met<'_>,
    stream: Stream,
    flags: &[bool],
) -> Result<(), EndFault>
    requires { IsWorking W.Sink printer.old }
    ensures { Prints W.Sink result printer.old printer.new (stream_line met.now.conn stream met.now.rule flags.now) }
{
    print_head(printer, met, stream)?;
    print_places(printer, flags)?;
    printer.print(&[Word("\n")])
}

/// Prints the line of a connection's stream up to the places.
fn print_head<W: Sink>(
    printer: &mut Printer<'_, W>,
    met: &Met<'_>,
    stream: Stream,
) -> Result<(), EndFault>
    requires { IsWorking W.Sink printer.old }
    ensures { Prints W.Sink result printer.old printer.new (line_head met.now.conn stream met.now.rule) }
{
    let parts = [
        Number(met.conn),
        Word(" "),
        Word(stream.name()),
        Word(" rule "),
        Number(number_of(met.rule)),
        Word(" applied"),
    ];
    printer.print(&parts)
}

/// The number of a rule from 1, or 0 for none.
pub(crate) fn number_of(rule: Option<usize>) -> u64
    requires { ForSome rule (λ number. number + 1 < 2 ^ 64) }
    ensures { result ≡ rule_number rule }
{
    match rule {
        None => 0,
        Some(rule) => rule as u64 + 1,
    }
}

/// Prints the places of the applied toxics.
fn print_places<W: Sink>(printer: &mut Printer<'_, W>, flags: &[bool]) -> Result<(), EndFault>
    requires { IsWorking W.Sink printer.old }
    ensures { Prints W.Sink result printer.old printer.new (places_text flags.now) }
{
    for (place, applied) in flags.iter().enumerate() {
        print_place(printer, place, *applied)?;
    }
    Ok(())
}

/// Prints the place of a toxic, where it is applied.
fn print_place<W: Sink>(
    printer: &mut Printer<'_, W>,
    place: usize,
    applied: bool,
) -> Result<(), EndFault>
    requires { IsWorking W.Sink printer.old }
    ensures { Prints W.Sink result printer.old printer.new (place_text place applied) }
{
    if applied {
        printer.print(&[Word(" "), Number(place as u64)])
    } else {
        Ok(())
    }
}
