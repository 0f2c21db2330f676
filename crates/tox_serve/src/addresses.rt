//! Addresses as the system takes them: one without a host gets one, and a named scope stands without brackets.
ghost use Rattle.std.specs.Prelude.{◌≡◌, IfOk, codes, string_bytes};
ghost use Rattle.std.specs.Char.{is_ascii_digit};
ghost use Rattle.std.specs.List.{after_first, before_first, list_all};
ghost use Rattle.tox_serve.specs.Addresses.{has_named_scope, has_no_host, is_closing, is_opening, is_percent, with_host};

use std::alloc::{AllocError, Global};

/// The host that an address without one is listened at.
const EVERY_HOST: &str = "0.0.0.0";

/// The host that an address without one connects to.
const THIS_HOST: &str = "localhost";

/// The address to listen at.
pub fn listen_address(alloc: Global, address: &str) -> Result<String, AllocError>
    ensures { IfOk result (λ whole.
        string_bytes whole ≡ with_host (codes "0.0.0.0") address.now) }
{
    with_host(alloc, EVERY_HOST, address)
}

/// The address to connect to.
pub(crate) fn connect_address(alloc: Global, address: &str) -> Result<String, AllocError>
    ensures { IfOk result (λ whole.
        string_bytes whole ≡ with_host (codes "localhost") address.now) }
{
    with_host(alloc, THIS_HOST, address)
}

/// The address, with this host if it has none, and without its brackets if they hold a named scope.
fn with_host(alloc: Global, host: &str, address: &str) -> Result<String, AllocError>
    ensures { IfOk result (λ whole. string_bytes whole ≡ with_host host.now address.now) }
{
    let mut whole = String::new(alloc);
    if has_no_host(address) {
        whole.push_str(host)?;
        whole.push_str(address)?;
        return Ok(whole);
    }
    let (before, inside) = split_at_opening(address);
    let (bracketed, port) = split_at_closing(inside);
    if before.is_empty() && has_named_scope(bracketed) && !port.is_empty() {
        whole.push_str(bracketed)?;
        whole.push_str(port)?;
    } else {
        whole.push_str(address)?;
    }
    Ok(whole)
}

/// Whether a host has a scope that is no number. The system looks such a host up, and knows no brackets there.
fn has_named_scope(host: &str) -> bool
    ensures { result ≡ has_named_scope host.now }
{
    !are_digits(behind_percent(host))
}

/// What stands behind the first percent sign.
fn behind_percent(host: &str) -> &str
    ensures { result.now ≡ after_first is_percent host.now }
{
    match host.split_once('%') {
        Some((_, scope)) => scope,
        None => "",
    }
}

fn are_digits(text: &str) -> bool
    ensures { result ≡ list_all is_ascii_digit text.now }
{
    text.bytes().all(|byte| byte.is_ascii_digit())
}

/// What stands before the first opening bracket, and what behind it.
fn split_at_opening(address: &str) -> (&str, &str)
    ensures before { result.0.now ≡ before_first is_opening address.now }
    ensures behind { result.1.now ≡ after_first is_opening address.now }
{
    match address.split_once('[') {
        Some(parts) => parts,
        None => (address, ""),
    }
}

/// What stands before the first closing bracket, and what behind it.
fn split_at_closing(address: &str) -> (&str, &str)
    ensures before { result.0.now ≡ before_first is_closing address.now }
    ensures behind { result.1.now ≡ after_first is_closing address.now }
{
    match address.split_once(']') {
        Some(parts) => parts,
        None => (address, ""),
    }
}

/// Whether a colon stands first, and no other behind it.
fn has_no_host(address: &str) -> bool
    ensures { result ≡ has_no_host address.now }
{
    match address.strip_prefix(':') {
        Some(port) => !port.contains(':'),
        None => false,
    }
}
