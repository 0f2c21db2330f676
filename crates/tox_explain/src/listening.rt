//! An address that can't be listened at, and what took its port.
use crate::explanation::Rest;
use crate::files::add_reason;
use crate::inputs::Inputs;
use crate::quoted::Quoted;
use std::alloc::AllocError;
use std::io;
use tox_config::ProxyDef;
use tox_proxy::{ServeFault, find_proxy};

/// The system's number for a port that is taken.
const ADDRESS_IN_USE: i32 = 98;

/// Adds the address, the system's reason, and what took the port.
pub(crate) fn explain_listening(
    text: &mut String,
    fault: &ServeFault<'_>,
    inputs: &Inputs<'_>,
) -> Result<Rest, AllocError> {
    match fault {
        ServeFault::ListenRefused(name, errno) => {
            let Some(proxy) = find_proxy(inputs.proxies, name) else {
                return Ok(Rest::Words);
            };
            let listen = proxy.listen.as_str();
            let shown = Quoted(listen);
            write!(text, "  listen: {shown}\n")?;
            add_refusal(text, *errno, listen, name, inputs)
        }
        ServeFault::ReadyRefused(errno) => {
            let ready = inputs.ready.unwrap_or("");
            let shown = Quoted(ready);
            write!(text, "  --ready {shown}\n")?;
            add_refusal(text, *errno, ready, "", inputs)
        }
        _ => Ok(Rest::Words),
    }
}

/// Adds why an address is refused, that of a proxy or, without a name, the one for probes.
fn add_refusal(
    text: &mut String,
    errno: Option<i32>,
    address: &str,
    name: &str,
    inputs: &Inputs<'_>,
) -> Result<Rest, AllocError> {
    let Some(errno) = errno else {
        text.push_str("  its host isn't found\n")?;
        return Ok(Rest::Words);
    };
    add_reason(text, &io::Error::from_raw_os_error(errno))?;
    if errno == ADDRESS_IN_USE {
        add_taker(text, address, name, inputs)?;
        return Ok(Rest::Nothing);
    }
    Ok(Rest::Words)
}

/// Adds what listens at the port of an address.
fn add_taker(
    text: &mut String,
    address: &str,
    name: &str,
    inputs: &Inputs<'_>,
) -> Result<(), AllocError> {
    let port = port_of(address);
    let shown = Quoted(port);
    match inputs.proxies.iter().find(|proxy| takes(proxy, port, name)) {
        Some(proxy) => {
            let taker = Quoted(proxy.name.as_str());
            write!(text, "  proxy `{taker}` takes port {shown}")?;
        }
        None => write!(
            text,
            "  another program listens at port {shown}: `ss -ltnp 'sport = :{shown}'` tells which"
        )?,
    }
    text.push_str("; give one of them another port, or 0 for one of the system's choice\n")
}

/// Whether a proxy of another name listens at a port.
fn takes(proxy: &ProxyDef, port: &str, name: &str) -> bool {
    proxy.enabled && proxy.name.as_str() != name && port_of(proxy.listen.as_str()) == port
}

fn port_of(address: &str) -> &str {
    match address.rsplit_once(':') {
        Some((_, port)) => port,
        None => address,
    }
}
