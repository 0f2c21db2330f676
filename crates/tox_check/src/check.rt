//! The check of a setup.
ghost use Rattle.std.specs.Prelude.{◌≡◌, ◌<◌, false, length, IfOk, IfErr, IsOk};
ghost use Rattle.std.specs.Prelude.{◌^◌, ◌+◌, Some, flat_map, slice_get};
ghost use Rattle.tox_script.specs.Rule.{Rule};
ghost use Rattle.tox_text.specs.Printing.{IsWorking, Prints};
ghost use Rattle.tox_check.specs.Checking.{PrintsCheck, StopsCheck, counts_line, end_text, toxic_count};
ghost use Rattle.tox_check.specs.Lines.{check_lines, rule_lines, rules_lines};
ghost use Rattle.tox_check.specs.Printing.{PrintsLines};
ghost use Rattle.tox_check.specs.Sentences.{sentence};
ghost use Rattle.tox_check.specs.Trees.{AreTrees, runs_named};

use crate::file_lines::print_file;
use crate::rule_warnings::warnings_of;
use crate::tree::RunTree;
use crate::trees::trees_of;
use crate::warning::{Warning, print_warning};
use std::alloc::Global;
use tox_runs::Setup;
use tox_script::Script;
use tox_text::Part::{Number, Word};
use tox_text::{PrintPickFault, Printer};
use tox_time::{EndFault, Sink};

/// Writes a line for what of the populate file isn't read or stands more than once and for each address of a proxy that can't be meant, then for each
/// rule and each toxic of a setup that has no effect, or not the whole one, in the script's order, and where it is asked for a last line with the numbers of
/// proxies, rules and toxics. Returns the number of warnings.
///
/// A prefix of the text is written after a fault.
pub fn print_check<W: Sink>(
    alloc: Global,
    writer: &mut W,
    setup: &Setup,
    verbose: bool,
) -> Result<u64, PrintPickFault>
    requires { W.failed writer.old ≡ false }
    ensures ok { IfOk result (PrintsCheck setup.now.remarks setup.now.proxies.items setup.now.script verbose
        (W.written writer.old) (W.written writer.new)) }
    ensures working { IsOk result → W.failed writer.new ≡ false }
    ensures left { IfErr result (StopsCheck setup.now.remarks setup.now.proxies.items setup.now.script verbose
        (W.written writer.old) (W.written writer.new) (W.failed writer.new)) }
{
    let rules = setup.script.rule_count();
    let Ok(trees) = trees_of(alloc, setup) else {
        return Err(PrintPickFault::OutOfMemory);
    };
    let mut printer = Printer::new(writer);
    let warned = print_lines(alloc, &mut printer, setup, &trees, rules)?;
    if print_last(&mut printer, setup, verbose).is_err() {
        return Err(PrintPickFault::WriteFault);
    }
    match printer.finish() {
        Ok(()) => Ok(warned),
        Err(_) => Err(PrintPickFault::WriteFault),
    }
}

/// Prints the lines of the populate file and of all rules, and returns how many there are.
fn print_lines<W: Sink>(
    alloc: Global,
    printer: &mut Printer<'_, W>,
    setup: &Setup,
    trees: &[Option<RunTree>],
    rules: usize,
) -> Result<u64, PrintPickFault>
    requires works { IsWorking W.Sink printer.old }
    requires trees { AreTrees setup.now.script setup.now.proxies.items trees.now }
    requires rules { rules ≡ length setup.now.script.rules }
    ensures { PrintsLines W.Sink result printer.old printer.new
        (check_lines setup.now.remarks setup.now.proxies.items setup.now.script
        (runs_named setup.now.proxies.items trees.now)) }
{
    let first = print_file(alloc, printer, &setup.remarks, &setup.proxies)?;
    let others = print_rules(alloc, printer, setup, trees, rules)?;
    Ok(first.saturating_add(others))
}

/// Prints the lines of all rules, and returns how many there are.
fn print_rules<W: Sink>(
    alloc: Global,
    printer: &mut Printer<'_, W>,
    setup: &Setup,
    trees: &[Option<RunTree>],
    rules: usize,
) -> Result<u64, PrintPickFault>
    requires works { IsWorking W.Sink printer.old }
    requires trees { AreTrees setup.now.script setup.now.proxies.items trees.now }
    requires rules { rules ≡ length setup.now.script.rules }
    ensures { PrintsLines W.Sink result printer.old printer.new
        (rules_lines setup.now.proxies.items setup.now.script
        (runs_named setup.now.proxies.items trees.now)) }
{
    let mut warned: u64 = 0;
    for rule in 0..rules {
        let count = print_rule(alloc, printer, setup, trees, rule)?;
        warned = warned.saturating_add(count);
    }
    Ok(warned)
}

/// Prints the lines of a rule, by its number from 0, and returns how many there are.
fn print_rule<W: Sink>(
    alloc: Global,
    printer: &mut Printer<'_, W>,
    setup: &Setup,
    trees: &[Option<RunTree>],
    rule: usize,
) -> Result<u64, PrintPickFault>
    requires works { IsWorking W.Sink printer.old }
    requires numbered { rule + 1 < 2 ^ 64 }
    requires trees { AreTrees setup.now.script setup.now.proxies.items trees.now }
    ensures { (found : Rule) → slice_get setup.now.script.rules rule ≡ Some found
        → PrintsLines W.Sink result printer.old printer.new
        (rule_lines setup.now.proxies.items
        (runs_named setup.now.proxies.items trees.now) (rule + 1) found) }
{
    let Ok(warnings) = warnings_of(alloc, setup, trees, rule) else {
        return Err(PrintPickFault::OutOfMemory);
    };
    match print_warnings(printer, rule, &warnings) {
        Ok(()) => Ok(warnings.len() as u64),
        Err(_) => Err(PrintPickFault::WriteFault),
    }
}

/// Prints the lines of a rule, by its number from 0.
fn print_warnings<W: Sink>(
    printer: &mut Printer<'_, W>,
    rule: usize,
    warnings: &[Warning<'_>],
) -> Result<(), EndFault>
    requires works { IsWorking W.Sink printer.old }
    requires numbered { rule + 1 < 2 ^ 64 }
    ensures { Prints W.Sink result printer.old printer.new (flat_map (sentence (rule + 1)) warnings.now) }
{
    for warning in warnings {
        print_warning(printer, rule as u64 + 1, warning)?;
    }
    Ok(())
}

/// Prints the last line, if it is asked for.
fn print_last<W: Sink>(
    printer: &mut Printer<'_, W>,
    setup: &Setup,
    verbose: bool,
) -> Result<(), EndFault>
    requires { IsWorking W.Sink printer.old }
    ensures { Prints W.Sink result printer.old printer.new (end_text verbose setup.now.proxies.items setup.now.script) }
{
    if verbose {
        print_counts(printer, setup)
    } else {
        Ok(())
    }
}

/// Prints how many proxies, rules and toxics there are.
fn print_counts<W: Sink>(printer: &mut Printer<'_, W>, setup: &Setup) -> Result<(), EndFault>
    requires { IsWorking W.Sink printer.old }
    ensures { Prints W.Sink result printer.old printer.new (counts_line setup.now.proxies.items setup.now.script) }
{
    let parts = [
        Number(setup.proxies.len() as u64),
        Word(" proxies, "),
        Number(setup.script.rule_count() as u64),
        Word(" rules, "),
        Number(toxic_count(&setup.script)),
        Word(" toxics\n"),
    ];
    printer.print(&parts)
}

/// The number of toxics, or the greatest `u64` where there are more.
fn toxic_count(script: &Script) -> u64
    ensures { result ≡ toxic_count script.now }
{
    let mut count: u64 = 0;
    for rule in 0..script.rule_count() {
        count = count.saturating_add(script.order(rule).len() as u64);
    }
    count
}
