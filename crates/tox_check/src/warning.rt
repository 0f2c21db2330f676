//! What is reported of a rule, and its sentence.
ghost use Rattle.std.specs.Prelude.{◌≡◌, option_map};
ghost use Rattle.tox_text.specs.Printing.{IsWorking, Prints};
ghost use Rattle.tox_check.specs.Sentences.{changes_nothing_text, covered_text, covering_text, disabled_text, near_text, no_toxicity_text, one_covers, partly_text, reason_text, seldom_text, sentence, some_cover, warning_text, unknown_text};

mod ranges;

use crate::idleness::Idleness;
use crate::listed::Listed;
use crate::warning::ranges::{print_more, print_ranges, print_taken};
use tox_text::Part::{Name, Number, Word};
use tox_text::Printer;
use tox_time::{EndFault, Sink};

/// What has no effect of a rule. Rules and toxics count from 1.
#[derive(Drop)]
pub(crate) enum Warning<'a> {
    /// No proxy has the name; this one's is near.
    UnknownProxy(&'a str, Option<&'a str>),
    /// Rules from the one to the other cover all connections.
    Covered(usize, usize),
    /// The rule gets these runs of its connections only, and rules before it get the others.
    Partly(Listed, Listed),
    /// The toxic of this number has the toxicity 0.
    NoToxicity(usize),
    /// The toxic of this number changes nothing, for this reason.
    ChangesNothing(usize, Idleness),
    /// The toxic of this number has the toxicity 1.
    Seldom(usize),
    /// The proxy of this name is disabled.
    Disabled(&'a str),
}

/// Prints the sentence of a warning of a rule, whose number from 1 is reported, as a line.
pub(crate) fn print_warning<W: Sink>(
    printer: &mut Printer<'_, W>,
    rule: u64,
    warning: &Warning<'_>,
) -> Result<(), EndFault>
    requires { IsWorking W.Sink printer.old }
    ensures { Prints W.Sink result printer.old printer.new (sentence rule warning.now) }
{
    printer.print(&[Word("rule "), Number(rule)])?;
    print_sentence(printer, warning)
}

/// Prints what a warning tells, behind its rule.
fn print_sentence<W: Sink>(
    printer: &mut Printer<'_, W>,
    warning: &Warning<'_>,
) -> Result<(), EndFault>
    requires { IsWorking W.Sink printer.old }
    ensures { Prints W.Sink result printer.old printer.new (warning_text warning.now) }
{
    match warning {
        Warning::UnknownProxy(name, near) => print_unknown(printer, name, *near),
        Warning::Covered(low, high) => print_covered(printer, *low, *high),
        Warning::Partly(own, taken) => print_partly(printer, own, taken),
        Warning::NoToxicity(toxic) => print_no_toxicity(printer, *toxic),
        Warning::ChangesNothing(toxic, why) => print_idle(printer, *toxic, *why),
        Warning::Seldom(toxic) => print_seldom(printer, *toxic),
        Warning::Disabled(name) => print_disabled(printer, name),
    }
}

/// Prints that a rule's proxy isn't there.
fn print_unknown<W: Sink>(
    printer: &mut Printer<'_, W>,
    name: &str,
    near: Option<&str>,
) -> Result<(), EndFault>
    requires { IsWorking W.Sink printer.old }
    ensures { Prints W.Sink result printer.old printer.new (unknown_text name.now (option_map (λ near. near.now) near.entry)) }
{
    printer.print(&[Word(" never applies: no proxy "), Name(name)])?;
    print_near(printer, near)
}

/// Prints the name of a near proxy, if there is one, and the line's end.
pub(crate) fn print_near<W: Sink>(
    printer: &mut Printer<'_, W>,
    near: Option<&str>,
) -> Result<(), EndFault>
    requires { IsWorking W.Sink printer.old }
    ensures { Prints W.Sink result printer.old printer.new (near_text (option_map (λ near. near.now) near.entry)) }
{
    match near {
        None => printer.print(&[Word("\n")]),
        Some(near) => printer.print(&[Word(" ("), Name(near), Word("?)\n")]),
    }
}

/// Prints which rules cover a rule's connections.
fn print_covered<W: Sink>(
    printer: &mut Printer<'_, W>,
    low: usize,
    high: usize,
) -> Result<(), EndFault>
    requires { IsWorking W.Sink printer.old }
    ensures { Prints W.Sink result printer.old printer.new (covered_text low high) }
{
    printer.print(&[Word(" never applies: ")])?;
    print_covering(printer, low, high)
}

/// Prints that the rules from the one to the other cover connections.
fn print_covering<W: Sink>(
    printer: &mut Printer<'_, W>,
    low: usize,
    high: usize,
) -> Result<(), EndFault>
    requires { IsWorking W.Sink printer.old }
    ensures { Prints W.Sink result printer.old printer.new (covering_text low high) }
{
    if low == high {
        print_one_covers(printer, low)
    } else {
        print_some_cover(printer, low, high)
    }
}

fn print_one_covers<W: Sink>(printer: &mut Printer<'_, W>, rule: usize) -> Result<(), EndFault>
    requires { IsWorking W.Sink printer.old }
    ensures { Prints W.Sink result printer.old printer.new (one_covers rule) }
{
    let parts = [
        Word("rule "),
        Number(rule as u64),
        Word(" covers its connections\n"),
    ];
    printer.print(&parts)
}

fn print_some_cover<W: Sink>(
    printer: &mut Printer<'_, W>,
    low: usize,
    high: usize,
) -> Result<(), EndFault>
    requires { IsWorking W.Sink printer.old }
    ensures { Prints W.Sink result printer.old printer.new (some_cover low high) }
{
    let parts = [
        Word("rules "),
        Number(low as u64),
        Word(" to "),
        Number(high as u64),
        Word(" cover its connections\n"),
    ];
    printer.print(&parts)
}

/// Prints which of its connections a rule gets, and which others get.
fn print_partly<W: Sink>(
    printer: &mut Printer<'_, W>,
    own: &Listed,
    taken: &Listed,
) -> Result<(), EndFault>
    requires { IsWorking W.Sink printer.old }
    ensures { Prints W.Sink result printer.old printer.new (partly_text
        own.now.shown.items own.now.more taken.now.shown.items taken.now.more) }
{
    printer.print(&[Word(" applies to ")])?;
    print_ranges(printer, own.shown.as_slice())?;
    print_more(printer, own.more)?;
    printer.print(&[Word(" only: connections ")])?;
    print_taken(printer, taken.shown.as_slice())?;
    print_more(printer, taken.more)?;
    printer.print(&[Word("\n")])
}

/// Prints that a toxic is never applied.
fn print_no_toxicity<W: Sink>(printer: &mut Printer<'_, W>, toxic: usize) -> Result<(), EndFault>
    requires { IsWorking W.Sink printer.old }
    ensures { Prints W.Sink result printer.old printer.new (no_toxicity_text toxic) }
{
    let parts = [
        Word(" toxic "),
        Number(toxic as u64),
        Word(" never applies: toxicity 0\n"),
    ];
    printer.print(&parts)
}

/// Prints that a toxic changes nothing, and why.
fn print_idle<W: Sink>(
    printer: &mut Printer<'_, W>,
    toxic: usize,
    why: Idleness,
) -> Result<(), EndFault>
    requires { IsWorking W.Sink printer.old }
    ensures { Prints W.Sink result printer.old printer.new (changes_nothing_text toxic why) }
{
    let parts = [
        Word(" toxic "),
        Number(toxic as u64),
        Word(" changes nothing: "),
        Word(reason_text(why)),
        Word("\n"),
    ];
    printer.print(&parts)
}

/// Why a toxic changes nothing.
fn reason_text(why: Idleness) -> &'static str
    ensures { result.now ≡ reason_text why }
{
    match why {
        Idleness::DoesNothing => "it delays nothing",
        Idleness::HasNoTime => "it has stopped when it begins",
        Idleness::Lost => "a timeout drops all data",
        Idleness::CutsLast => "it cuts without delay, and is the last",
    }
}

/// Prints that a toxic is applied seldom.
fn print_seldom<W: Sink>(printer: &mut Printer<'_, W>, toxic: usize) -> Result<(), EndFault>
    requires { IsWorking W.Sink printer.old }
    ensures { Prints W.Sink result printer.old printer.new (seldom_text toxic) }
{
    let parts = [
        Word(" toxic "),
        Number(toxic as u64),
        Word(" seldom applies: toxicity 1 is a thousandth\n"),
    ];
    printer.print(&parts)
}

/// Prints that a rule's proxy is disabled.
fn print_disabled<W: Sink>(printer: &mut Printer<'_, W>, name: &str) -> Result<(), EndFault>
    requires { IsWorking W.Sink printer.old }
    ensures { Prints W.Sink result printer.old printer.new (disabled_text name.now) }
{
    let parts = [
        Word(" is for proxy "),
        Name(name),
        Word(", which is disabled\n"),
    ];
    printer.print(&parts)
}
