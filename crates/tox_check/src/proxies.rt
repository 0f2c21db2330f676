//! The lines of proxies: addresses that can't be meant.
ghost use Rattle.std.specs.Prelude.{[], ◌∷◌};
ghost use Rattle.tox_text.specs.Parts.{text_of};
ghost use Rattle.tox_check.specs.Printing.{PrintsLines};
ghost use Rattle.tox_check.specs.ProxyLines.{address_lines, line_if, own_address_line, is_own_address, proxies_lines, proxy_lines, upstream_lines};
ghost use Rattle.tox_text.specs.Printing.{IsWorking};

use crate::addresses::{has_scheme, is_own_address};
use tox_config::ProxyDef;
use tox_text::Part::{Name, Word};
use tox_text::{Part, PrintPickFault, Printer};
use tox_time::Sink;

/// Prints the lines of proxies in order, and returns how many there are.
pub(crate) fn print_proxies<W: Sink>(
    printer: &mut Printer<'_, W>,
    proxies: &[ProxyDef],
) -> Result<u64, PrintPickFault>
    requires { IsWorking W.Sink printer.old }
    ensures { PrintsLines W.Sink result printer.old printer.new (proxies_lines proxies.now) }
{
    let [proxy, proxies @ ..] = proxies else {
        return Ok(0);
    };
    let first = print_proxy(printer, proxy)?;
    let others = print_proxies(printer, proxies)?;
    Ok(first.saturating_add(others))
}

/// Prints the lines of a proxy, and returns how many there are.
fn print_proxy<W: Sink>(
    printer: &mut Printer<'_, W>,
    proxy: &ProxyDef,
) -> Result<u64, PrintPickFault>
    requires { IsWorking W.Sink printer.old }
    ensures { PrintsLines W.Sink result printer.old printer.new (proxy_lines proxy.now) }
{
    if !proxy.enabled {
        return Ok(0);
    }
    let listen = print_address(printer, &proxy.name, " listen", &proxy.listen)?;
    let upstream = print_upstream(printer, proxy)?;
    Ok(listen.saturating_add(upstream))
}

/// Prints the lines of a proxy's upstream, and returns how many there are.
fn print_upstream<W: Sink>(
    printer: &mut Printer<'_, W>,
    proxy: &ProxyDef,
) -> Result<u64, PrintPickFault>
    requires { IsWorking W.Sink printer.old }
    ensures { PrintsLines W.Sink result printer.old printer.new (upstream_lines proxy.now) }
{
    let scheme = print_address(printer, &proxy.name, " upstream", &proxy.upstream)?;
    let own = print_own(printer, &proxy.name, &proxy.listen, &proxy.upstream)?;
    Ok(scheme.saturating_add(own))
}

/// Prints that an address begins with a scheme, if it does.
fn print_address<'a, W: Sink>(
    printer: &mut Printer<'_, W>,
    name: &'a str,
    which: &'a str,
    address: &'a str,
) -> Result<u64, PrintPickFault>
    requires { IsWorking W.Sink printer.old }
    ensures { PrintsLines W.Sink result printer.old printer.new (address_lines name.now which.now address.now) }
{
    if !has_scheme(address) {
        return Ok(0);
    }
    let parts = [
        Word("proxy "),
        Name(name),
        Word(which),
        Word(" has a scheme: "),
        Name(address),
        Word("\n"),
    ];
    print_line(printer, &parts)
}

/// Prints that a proxy connects to where it listens, if it does.
fn print_own<'a, W: Sink>(
    printer: &mut Printer<'_, W>,
    name: &'a str,
    listen: &str,
    upstream: &'a str,
) -> Result<u64, PrintPickFault>
    requires { IsWorking W.Sink printer.old }
    ensures { PrintsLines W.Sink result printer.old printer.new
        (line_if (is_own_address listen.now upstream.now) (own_address_line name.now upstream.now)) }
{
    if !is_own_address(listen, upstream) {
        return Ok(0);
    }
    let parts = [
        Word("proxy "),
        Name(name),
        Word(" upstream is its own address: "),
        Name(upstream),
        Word("\n"),
    ];
    print_line(printer, &parts)
}

/// Prints a line, and counts it.
pub(crate) fn print_line<W: Sink>(
    printer: &mut Printer<'_, W>,
    parts: &[Part<'_>],
) -> Result<u64, PrintPickFault>
    requires { IsWorking W.Sink printer.old }
    ensures { PrintsLines W.Sink result printer.old printer.new (text_of parts.now ∷ []) }
{
    match printer.print(parts) {
        Ok(()) => Ok(1),
        Err(_) => Err(PrintPickFault::WriteFault),
    }
}
