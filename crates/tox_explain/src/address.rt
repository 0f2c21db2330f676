//! What is wrong in a text that is no address.
use crate::quoted::Quoted;
use std::alloc::AllocError;
use tox_config::is_address;

/// Adds what is wrong in a text that is no address, and what to write.
pub(crate) fn add_address_trouble(text: &mut String, address: &str) -> Result<(), AllocError> {
    if let Some((scheme, others)) = address.split_once("://") {
        let scheme = Quoted(scheme);
        write!(text, "  an address has no `{scheme}://`")?;
        return add_host(text, others);
    }
    let (front, path) = address.split_once('/').unwrap_or((address, ""));
    if front.len() < address.len() {
        let path = Quoted(path);
        write!(text, "  an address has no path `/{path}`")?;
        return add_host(text, address);
    }
    let shown = Quoted(address);
    match address.rsplit_once(':') {
        None if is_number(address) => write!(
            text,
            "  the host is missing; write localhost:{shown}\n"
        ),
        None if address.is_empty() => text.push_str("  it is empty\n"),
        None => write!(text, "  the port is missing; write {shown}:PORT\n"),
        Some((_, port)) => {
            let port = Quoted(port);
            write!(text, "  the port `{port}` is no whole number up to 65535\n")
        }
    }
}

/// Adds the address that a text with a path or without a scheme has.
fn add_host(text: &mut String, others: &str) -> Result<(), AllocError> {
    let (host, _) = others.split_once('/').unwrap_or((others, ""));
    let shown = Quoted(host);
    if is_address(host) {
        write!(text, "; write {shown}\n")
    } else {
        write!(text, "; write {shown}:PORT\n")
    }
}

fn is_number(text: &str) -> bool {
    !text.is_empty() && text.bytes().all(|byte| byte.is_ascii_digit())
}
