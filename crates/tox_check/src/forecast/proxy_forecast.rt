//! The forecast of a proxy.
ghost use Rattle.std.specs.Prelude.{◌≡◌, ◌≢◌, ◌<◌, ◌≤◌, ◌^◌, false, length, OnOk, IfErr, Err};
ghost use Rattle.std.specs.Io.KnownBytes.{append_known};
ghost use Rattle.tox_script.specs.index.Numbered.{IsIndex};
ghost use Rattle.tox_text.specs.PrintingPick.{PickLeaves};
ghost use Rattle.tox_text.specs.Printing.{IsWorking, Prints};
ghost use Rattle.tox_text.specs.Writing.{Writes};
ghost use Rattle.tox_check.specs.forecast.ForecastText.{forecast_text, links_text, totals_text};
ghost use Rattle.tox_check.specs.forecast.Tallied.{IsTallied};

use crate::forecast::flags::link_flags;
use crate::forecast::link_line::{Met, print_link};
use crate::forecast::question::Question;
use crate::forecast::tally::{Tally, count_link, tallies_of};
use crate::forecast::totals::{CountedRule, print_rule};
use std::alloc::Global;
use tox_script::{RuleIndex, Script};
use tox_text::{PrintPickFault, Printer};
use tox_time::{EndFault, Sink};

/// Writes what the connections of a proxy meet, as a forecast text: a line for each stream of each connection, from the first on, and
/// then a line for each toxic of each rule that was met.
///
/// Nothing is written after [`PrintPickFault::OutOfMemory`], and a prefix of the text after [`PrintPickFault::WriteFault`].
pub fn print_forecast<W: Sink>(
    alloc: Global,
    writer: &mut W,
    proxy: &str,
    script: &Script,
    question: &Question<'_>,
) -> Result<(), PrintPickFault>
    requires working { W.failed writer.old ≡ false }
    requires last { question.now.links ≤ 1_000_000 }
    ensures ok { OnOk result
        (W.written writer.new
        ≡ append_known (W.written writer.old) (forecast_text question.now proxy.now script.now)) }
    ensures working { result ≢ Err PrintPickFault.WriteFault → W.failed writer.new ≡ false }
    ensures left { IfErr result
        (PickLeaves (W.written writer.old) (W.written writer.new) (W.failed writer.new)
        (forecast_text question.now proxy.now script.now)) }
{
    let Ok(index) = script.index(alloc, proxy) else {
        return Err(PrintPickFault::OutOfMemory);
    };
    let Ok(mut tallies) = tallies_of(alloc, script.rule_count()) else {
        return Err(PrintPickFault::OutOfMemory);
    };
    let forecast = Forecast {
        proxy,
        script,
        index: &index,
        question,
    };
    if forecast.write(writer, &mut tallies).is_err() {
        return Err(PrintPickFault::WriteFault);
    }
    Ok(())
}

/// A proxy, what its connections meet, and what is asked of it.
#[derive(Clone, Copy)]
struct Forecast<'a> {
    proxy: &'a str,
    script: &'a Script,
    index: &'a RuleIndex,
    question: &'a Question<'a>,
    ghost indexed: { IsIndex proxy.now script.now index.now },
    ghost few: { question.now.links ≤ 1_000_000 },
    ghost numbered: { length script.now.rules < 2 ^ 64 },
}

impl<'a> Forecast<'a> {
    /// Writes the lines and the totals. After an `Err` a prefix of them is written.
    fn write<W: Sink>(&self, writer: &mut W, tallies: &mut [Tally]) -> Result<(), EndFault>
        requires working { W.failed writer.old ≡ false }
        requires one_each { length tallies.old ≡ length self.now.script.now.rules }
        requires tallied { IsTallied self.now.proxy.now self.now.script.now
            self.now.question.now.seed 0 tallies.old }
        ensures { Writes result (W.written writer.old) (W.written writer.new) (W.failed writer.new)
            (forecast_text self.now.question.now self.now.proxy.now self.now.script.now) }
    {
        let mut printer = Printer::new(writer);
        self.print(&mut printer, tallies)?;
        printer.finish()
    }

    fn print<W: Sink>(
        &self,
        printer: &mut Printer<'_, W>,
        tallies: &mut [Tally],
    ) -> Result<(), EndFault>
        requires working { IsWorking W.Sink printer.old }
        requires one_each { length tallies.old ≡ length self.now.script.now.rules }
        requires tallied { IsTallied self.now.proxy.now self.now.script.now
            self.now.question.now.seed 0 tallies.old }
        ensures { Prints W.Sink result printer.old printer.new
            (forecast_text self.now.question.now self.now.proxy.now self.now.script.now) }
    {
        self.print_links(printer, tallies)?;
        self.print_totals(printer, tallies)
    }

    /// Prints the lines of all connections, and counts what they meet.
    fn print_links<W: Sink>(
        &self,
        printer: &mut Printer<'_, W>,
        tallies: &mut [Tally],
    ) -> Result<(), EndFault>
        requires working { IsWorking W.Sink printer.old }
        requires one_each { length tallies.old ≡ length self.now.script.now.rules }
        requires tallied { IsTallied self.now.proxy.now self.now.script.now
            self.now.question.now.seed 0 tallies.old }
        ensures printed { Prints W.Sink result printer.old printer.new
            (links_text self.now.question.now self.now.proxy.now self.now.script.now) }
        ensures tallied { OnOk result
            (IsTallied self.now.proxy.now self.now.script.now self.now.question.now.seed
            self.now.question.now.links tallies.new) }
    {
        let proxy = self.proxy;
        let script = self.script;
        let index = self.index;
        let question = self.question;
        for before in 0..question.links {
            let conn = before + 1;
            let rule = index.rule(conn);
            let chains = script.rule_chains(rule);
            let flags = link_flags(chains, question.seed, conn);
            let met = Met { proxy, conn, rule };
            print_link(printer, question, &met, chains, &flags)?;
            count_link(tallies, rule, &flags);
        }
        Ok(())
    }

    /// Prints the totals of all rules.
    fn print_totals<W: Sink>(
        &self,
        printer: &mut Printer<'_, W>,
        tallies: &[Tally],
    ) -> Result<(), EndFault>
        requires working { IsWorking W.Sink printer.old }
        requires one_each { length tallies.now ≡ length self.now.script.now.rules }
        requires tallied { IsTallied self.now.proxy.now self.now.script.now
            self.now.question.now.seed self.now.question.now.links tallies.now }
        ensures { Prints W.Sink result printer.old printer.new
            (totals_text self.now.question.now self.now.proxy.now self.now.script.now) }
    {
        let json = self.question.json;
        let proxy = self.proxy;
        let script = self.script;
        for (rule, tally) in tallies.iter().enumerate() {
            let chains = script.rule_chains(Some(rule));
            let counted = CountedRule {
                json,
                proxy,
                rule,
                tally,
                chains,
            };
            print_rule(printer, &counted, script.order(rule))?;
        }
        Ok(())
    }
}
