//! The lines of a populate file: what was noted of it, addresses that can't be meant, and addresses that two proxies listen at.
ghost use Rattle.std.specs.Prelude.{◌≡◌, ◌==◌, ◌++◌, codes, flat_map, option_map, IfOk};
ghost use Rattle.std.specs.List.{find, list_all, list_any};
ghost use Rattle.tox_text.specs.Names.{visible_name};
ghost use Rattle.tox_text.specs.Nearest.{nearest};
ghost use Rattle.tox_text.specs.Printing.{IsWorking, Prints};
ghost use Rattle.tox_check.specs.FileLines.{file_lines, has_any_port, is_toxiproxys, listens_there, noted_lines, read_keys, repeated_lines, shared_lines, shared_lines_of, toxiproxys_lines, unread_lines};
ghost use Rattle.tox_check.specs.Printing.{PrintsLines};
ghost use Rattle.tox_check.specs.ProxyLines.{proxies_lines};
ghost use Rattle.tox_check.specs.Sentences.{near_text};

use crate::proxies::{print_line, print_proxies};
use crate::warning::print_near;
use std::alloc::{AllocError, Global};
use tox_config::{ProxyDef, Remarks, RepeatedName, UnreadMember};
use tox_text::Part::{Name, Number, Word};
use tox_text::{PrintPickFault, Printer, nearest};
use tox_time::{EndFault, Sink};

/// Prints the lines of a populate file, and returns how many there are.
pub(crate) fn print_file<W: Sink>(
    alloc: Global,
    printer: &mut Printer<'_, W>,
    remarks: &Remarks,
    proxies: &[ProxyDef],
) -> Result<u64, PrintPickFault>
    requires { IsWorking W.Sink printer.old }
    ensures { PrintsLines W.Sink result printer.old printer.new
        (file_lines remarks.now proxies.now) }
{
    let noted = print_noted(alloc, printer, remarks)?;
    let others = print_addresses(printer, proxies)?;
    Ok(noted.saturating_add(others))
}

/// Prints the lines of proxies' addresses, and returns how many there are.
fn print_addresses<W: Sink>(
    printer: &mut Printer<'_, W>,
    proxies: &[ProxyDef],
) -> Result<u64, PrintPickFault>
    requires { IsWorking W.Sink printer.old }
    ensures { PrintsLines W.Sink result printer.old printer.new
        (proxies_lines proxies.now ++ shared_lines proxies.now) }
{
    let own = print_proxies(printer, proxies)?;
    let shared = print_shared(printer, proxies)?;
    Ok(own.saturating_add(shared))
}

/// Prints what was noted, and returns how many lines there are.
fn print_noted<W: Sink>(
    alloc: Global,
    printer: &mut Printer<'_, W>,
    remarks: &Remarks,
) -> Result<u64, PrintPickFault>
    requires { IsWorking W.Sink printer.old }
    ensures { PrintsLines W.Sink result printer.old printer.new (noted_lines remarks.now) }
{
    let unread = print_unread(alloc, printer, &remarks.unread)?;
    let others = print_others(printer, &remarks.unread, &remarks.repeated)?;
    Ok(unread.saturating_add(others))
}

/// Prints that there are members that Toxiproxy prints, if there are any, and the names that stand more than once.
fn print_others<W: Sink>(
    printer: &mut Printer<'_, W>,
    unread: &[UnreadMember],
    repeated: &[RepeatedName],
) -> Result<u64, PrintPickFault>
    requires { IsWorking W.Sink printer.old }
    ensures { PrintsLines W.Sink result printer.old printer.new
        (toxiproxys_lines unread.now ++ flat_map repeated_lines repeated.now) }
{
    let hint = print_toxiproxys(printer, unread)?;
    let others = print_repeated(printer, repeated)?;
    Ok(hint.saturating_add(others))
}

/// Prints the members that aren't read, and returns how many lines there are.
fn print_unread<W: Sink>(
    alloc: Global,
    printer: &mut Printer<'_, W>,
    unread: &[UnreadMember],
) -> Result<u64, PrintPickFault>
    requires { IsWorking W.Sink printer.old }
    ensures { PrintsLines W.Sink result printer.old printer.new (flat_map unread_lines unread.now) }
{
    let mut warned: u64 = 0;
    for member in unread {
        let count = print_member(alloc, printer, member)?;
        warned = warned.saturating_add(count);
    }
    Ok(warned)
}

/// Prints that a member isn't read, unless Toxiproxy prints it.
fn print_member<W: Sink>(
    alloc: Global,
    printer: &mut Printer<'_, W>,
    member: &UnreadMember,
) -> Result<u64, PrintPickFault>
    requires { IsWorking W.Sink printer.old }
    ensures { PrintsLines W.Sink result printer.old printer.new (unread_lines member.now) }
{
    if is_toxiproxys(&member.key) {
        return Ok(0);
    }
    let Ok(near) = near_key(alloc, &member.key) else {
        return Err(PrintPickFault::OutOfMemory);
    };
    match print_unknown_member(printer, &member.proxy, &member.key, near) {
        Ok(()) => Ok(1),
        Err(_) => Err(PrintPickFault::WriteFault),
    }
}

/// The name of a member that is read which is near.
fn near_key(alloc: Global, key: &str) -> Result<Option<&'static str>, AllocError>
    ensures { IfOk result (λ found. option_map (λ near. near.now) found ≡ nearest key.now read_keys) }
{
    nearest(alloc, key, &["name", "listen", "upstream", "enabled"])
}

/// Prints that a member isn't read.
fn print_unknown_member<'a, W: Sink>(
    printer: &mut Printer<'_, W>,
    proxy: &'a str,
    key: &'a str,
    near: Option<&str>,
) -> Result<(), EndFault>
    requires { IsWorking W.Sink printer.old }
    ensures { Prints W.Sink result printer.old printer.new
        ((codes "proxy " ++ (visible_name proxy.now ++ (codes " has an unknown member: " ++ visible_name key.now)))
        ++ near_text (option_map (λ near. near.now) near.entry)) }
{
    let parts = [
        Word("proxy "),
        Name(proxy),
        Word(" has an unknown member: "),
        Name(key),
    ];
    printer.print(&parts)?;
    print_near(printer, near)
}

/// Whether Toxiproxy prints a member of this name, which isn't read.
fn is_toxiproxys(key: &str) -> bool
    ensures { result ≡ is_toxiproxys key.now }
{
    key == "toxics" || key == "Logger"
}

/// Prints that members that Toxiproxy prints aren't read, if there are any.
fn print_toxiproxys<W: Sink>(
    printer: &mut Printer<'_, W>,
    unread: &[UnreadMember],
) -> Result<u64, PrintPickFault>
    requires { IsWorking W.Sink printer.old }
    ensures { PrintsLines W.Sink result printer.old printer.new (toxiproxys_lines unread.now) }
{
    if !has_toxiproxys(unread) {
        return Ok(0);
    }
    print_line(
        printer,
        &[Word(
            "the file has toxics as Toxiproxy prints them, which aren't read: examples/from-toxiproxy makes a script of them\n",
        )],
    )
}

/// Whether Toxiproxy prints one of these members.
fn has_toxiproxys(unread: &[UnreadMember]) -> bool
    ensures { result ≡ list_any (λ member. is_toxiproxys member.key) unread.now }
{
    unread.iter().any(|member| is_toxiproxys(&member.key))
}

/// Prints the names that stand more than once, and returns how many lines there are.
fn print_repeated<W: Sink>(
    printer: &mut Printer<'_, W>,
    repeated: &[RepeatedName],
) -> Result<u64, PrintPickFault>
    requires { IsWorking W.Sink printer.old }
    ensures { PrintsLines W.Sink result printer.old printer.new (flat_map repeated_lines repeated.now) }
{
    let mut warned: u64 = 0;
    for name in repeated {
        let count = print_times(printer, name)?;
        warned = warned.saturating_add(count);
    }
    Ok(warned)
}

/// Prints how often a name stands.
fn print_times<W: Sink>(
    printer: &mut Printer<'_, W>,
    repeated: &RepeatedName,
) -> Result<u64, PrintPickFault>
    requires { IsWorking W.Sink printer.old }
    ensures { PrintsLines W.Sink result printer.old printer.new (repeated_lines repeated.now) }
{
    let parts = [
        Word("proxy "),
        Name(&repeated.name),
        Word(" is defined "),
        Number(repeated.count as u64),
        Word(" times: the last one counts\n"),
    ];
    print_line(printer, &parts)
}

/// Prints of each proxy the first behind it that listens at its address, and returns how many lines there are.
fn print_shared<W: Sink>(
    printer: &mut Printer<'_, W>,
    proxies: &[ProxyDef],
) -> Result<u64, PrintPickFault>
    requires { IsWorking W.Sink printer.old }
    ensures { PrintsLines W.Sink result printer.old printer.new (shared_lines proxies.now) }
{
    let [proxy, proxies @ ..] = proxies else {
        return Ok(0);
    };
    let first = print_shared_of(printer, proxy, first_there(proxy, proxies))?;
    let others = print_shared(printer, proxies)?;
    Ok(first.saturating_add(others))
}

/// The first of some proxies that listens where a proxy does.
fn first_there<'a>(proxy: &ProxyDef, proxies: &'a [ProxyDef]) -> Option<&'a ProxyDef>
    ensures { option_map (λ other. other.now) result ≡ find (listens_there proxy.now) proxies.now }
{
    proxies.iter().find(|other| listens_there(proxy, other))
}

/// Whether two proxies, both enabled, listen at one address.
fn listens_there(proxy: &ProxyDef, other: &ProxyDef) -> bool
    ensures { result ≡ listens_there proxy.now other.now }
{
    proxy.enabled
        && other.enabled
        && other.listen.as_str() == proxy.listen.as_str()
        && !has_any_port(&proxy.listen)
}

/// Whether the port of an address is 0, for which the system chooses one.
fn has_any_port(address: &str) -> bool
    ensures { result ≡ has_any_port address.now }
{
    match address.rsplit_once(':') {
        Some((_host, port)) => is_zero(port),
        None => is_zero(address),
    }
}

/// Whether a text has no digit but 0.
fn is_zero(text: &str) -> bool
    ensures { result ≡ list_all (λ byte. byte == 48) text.now }
{
    text.bytes().all(|byte| byte == b'0')
}

/// Prints that another proxy listens where a proxy does, if there is one.
fn print_shared_of<'a, W: Sink>(
    printer: &mut Printer<'_, W>,
    proxy: &'a ProxyDef,
    other: Option<&'a ProxyDef>,
) -> Result<u64, PrintPickFault>
    requires { IsWorking W.Sink printer.old }
    ensures { PrintsLines W.Sink result printer.old printer.new
        (shared_lines_of proxy.now (option_map (λ other. other.now) other.entry)) }
{
    let Some(other) = other else {
        return Ok(0);
    };
    let parts = [
        Word("proxy "),
        Name(&other.name),
        Word(" listens where proxy "),
        Name(&proxy.name),
        Word(" does: "),
        Name(&proxy.listen),
        Word("\n"),
    ];
    print_line(printer, &parts)
}
