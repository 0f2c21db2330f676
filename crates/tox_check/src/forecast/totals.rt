//! The totals of rules.
ghost use Rattle.std.specs.Prelude.{◌≡◌, ◌+◌, ◌<◌, ◌≤◌, ◌^◌, [], length, slice_index_or};
ghost use Rattle.tox_text.specs.Printing.{IsWorking, Prints};
ghost use Rattle.tox_check.specs.forecast.Tally.{totals_in};
ghost use Rattle.tox_check.specs.forecast.Totals.{place_on, rule_totals, total_in, total_line, toxic_total, toxic_totals};

pub(crate) mod places;

use crate::forecast::object::print_total_object;
use crate::forecast::tally::Tally;
use crate::forecast::totals::places::Places;
use tox_script::{Chains, NamedChain};
use tox_text::Part::{Name, Number, Word};
use tox_text::Printer;
use tox_time::{EndFault, Sink, Stream};

/// A rule of a proxy, by its number from 0, with its toxics and what was counted of it.
#[derive(Clone, Copy)]
pub(crate) struct CountedRule<'a> {
    /// Whether each line is an object of JSON.
    pub(crate) json: bool,
    pub(crate) proxy: &'a str,
    pub(crate) rule: usize,
    pub(crate) tally: &'a Tally,
    pub(crate) chains: &'a Chains,
    pub(crate) ghost numbered: { rule + 1 < 2 ^ 64 },
}

/// Prints the lines of a rule's toxics, if the rule was met. The streams are those of its toxics in the file's order.
pub(crate) fn print_rule<W: Sink>(
    printer: &mut Printer<'_, W>,
    counted: &CountedRule<'_>,
    order: &[Stream],
) -> Result<(), EndFault>
    requires working { IsWorking W.Sink printer.old }
    requires short { length order.now + 1 < 2 ^ 64 }
    ensures { Prints W.Sink result printer.old printer.new
        (rule_totals counted.now.json counted.now.proxy.now counted.now.rule
        (totals_in counted.now.tally.now) counted.now.chains.now order.now) }
{
    if counted.tally.met == 0 {
        return Ok(());
    }
    let first = Places {
        number: 1,
        upstream: 0,
        downstream: 0,
    };
    print_toxics(printer, counted, first, order)
}

/// Prints the lines of some toxics of a rule, the first of which has these places.
fn print_toxics<W: Sink>(
    printer: &mut Printer<'_, W>,
    counted: &CountedRule<'_>,
    at: Places,
    order: &[Stream],
) -> Result<(), EndFault>
    requires working { IsWorking W.Sink printer.old }
    requires numbered { at.number + length order.now < 2 ^ 64 }
    requires upstream { at.upstream ≤ at.number }
    requires downstream { at.downstream ≤ at.number }
    ensures { Prints W.Sink result printer.old printer.new
        (toxic_totals counted.now.json counted.now.proxy.now counted.now.rule
        (totals_in counted.now.tally.now) counted.now.chains.now at order.now) }
{
    let [stream, order @ ..] = order else {
        return Ok(());
    };
    print_toxic(printer, counted, at, *stream)?;
    print_toxics(printer, counted, at.after(*stream), order)
}

/// Prints the line of a toxic on a stream, which has these places.
fn print_toxic<W: Sink>(
    printer: &mut Printer<'_, W>,
    counted: &CountedRule<'_>,
    at: Places,
    stream: Stream,
) -> Result<(), EndFault>
    requires { IsWorking W.Sink printer.old }
    ensures { Prints W.Sink result printer.old printer.new
        (toxic_total counted.now.json counted.now.proxy.now counted.now.rule
        (totals_in counted.now.tally.now) counted.now.chains.now
        (record { number = at.number; stream = stream; place = place_on stream at })) }
{
    let place = at.on(stream);
    let total = Total {
        proxy: counted.proxy,
        rule: counted.rule as u64 + 1,
        number: at.number as u64,
        applied: counted.tally.applied(stream, place) as u64,
        met: counted.tally.met as u64,
        name: name_at(counted.chains.on(stream), place),
    };
    print_total(printer, counted.json, &total)
}

/// What a line tells of a toxic.
#[derive(Clone, Copy)]
pub(crate) struct Total<'a> {
    pub(crate) proxy: &'a str,
    /// The rule's number from 1.
    pub(crate) rule: u64,
    /// The toxic's number in its rule, from 1.
    pub(crate) number: u64,
    /// How many connections it is applied to.
    pub(crate) applied: u64,
    /// How many connections met the rule.
    pub(crate) met: u64,
    pub(crate) name: &'a str,
}

/// Prints the line of a toxic, in words or as an object of JSON.
fn print_total<W: Sink>(
    printer: &mut Printer<'_, W>,
    json: bool,
    total: &Total<'_>,
) -> Result<(), EndFault>
    requires { IsWorking W.Sink printer.old }
    ensures { Prints W.Sink result printer.old printer.new
        (total_in json total.now.proxy.now total.now.rule total.now.number
        total.now.applied total.now.met total.now.name.now) }
{
    if json {
        print_total_object(printer, total)
    } else {
        print_words(printer, total)
    }
}

/// Prints the line of a toxic in words.
fn print_words<W: Sink>(printer: &mut Printer<'_, W>, total: &Total<'_>) -> Result<(), EndFault>
    requires { IsWorking W.Sink printer.old }
    ensures { Prints W.Sink result printer.old printer.new
        (total_line total.now.rule total.now.number total.now.applied total.now.met
        total.now.name.now) }
{
    let parts = [
        Word("rule "),
        Number(total.rule),
        Word(" toxic "),
        Number(total.number),
        Word(" applied "),
        Number(total.applied),
        Word(" of "),
        Number(total.met),
        Word(" "),
        Name(total.name),
        Word("\n"),
    ];
    printer.print(&parts)
}

/// The name at a place, or the empty one past the last.
fn name_at(toxics: &NamedChain, place: usize) -> &str
    ensures { result.now ≡ slice_index_or toxics.now.names place [] }
{
    let names = toxics.names();
    if place < names.len() {
        names[place].as_str()
    } else {
        ""
    }
}
