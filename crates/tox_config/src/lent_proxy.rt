//! One object of a populate file, lent from the value that was read.
ghost use Rattle.std.specs.Prelude.{◌≡◌, codes, option_map, IfOk, IfErr, Ok, Err};
ghost use Rattle.serde_json.specs.View.{view};
ghost use Rattle.tox_config.specs.Proxy.{enabled_of, listen_of, listen_text, proxy_name, proxy_of, upstream_of};
ghost use Rattle.tox_config.specs.LentProxy.{lent_view};

use crate::address::is_address;
use crate::fault::ConfigFault;
use crate::proxy::ProxyDef;
use serde_json::Value;
use std::alloc::{AllocError, Global};
use tox_time::{MAX_TEXT_LEN, is_sized};

const DEFAULT_LISTEN: &str = "localhost:0";

/// A proxy whose texts are lent, so that nothing is copied before it is known to be kept.
#[derive(Clone, Copy)]
pub(crate) struct LentProxy<'a> {
    pub(crate) name: &'a str,
    listen: &'a str,
    upstream: &'a str,
    enabled: bool,
}

impl<'a> LentProxy<'a> {
    /// The proxy of the value at a place, or the first of its faults.
    pub(crate) fn read(value: &'a Value, place: usize) -> Result<LentProxy<'a>, ConfigFault>
        ensures ok { IfOk result
            (λ entry. proxy_of place (view value.now) ≡ Ok (lent_view entry)) }
        ensures err { IfErr result (λ fault. proxy_of place (view value.now) ≡ Err fault) }
    {
        if !value.is_object() {
            return Err(ConfigFault::NotObject(place));
        }
        let name = proxy_name(value).ok_or(ConfigFault::Name(place))?;
        let listen = listen_of(value).ok_or(ConfigFault::Listen(place))?;
        let upstream = upstream_of(value).ok_or(ConfigFault::Upstream(place))?;
        let enabled = enabled_of(value).ok_or(ConfigFault::Enabled(place))?;
        Ok(LentProxy {
            name,
            listen,
            upstream,
            enabled,
        })
    }

    /// The proxy, with its texts copied.
    pub(crate) fn to_def(&self, alloc: Global) -> Result<ProxyDef, AllocError>
        ensures { IfOk result (λ def. def ≡ lent_view self.now) }
    {
        Ok(ProxyDef {
            name: String::from_str(alloc, self.name)?,
            listen: String::from_str(alloc, self.listen)?,
            upstream: String::from_str(alloc, self.upstream)?,
            enabled: self.enabled,
        })
    }
}

/// The name. None if it is absent or isn't a text of 1 to 255 bytes.
pub(crate) fn proxy_name(value: &Value) -> Option<&str>
    ensures { option_map (λ name. name.now) result ≡ proxy_name (view value.now) }
{
    let name = value.get("name")?.as_str()?;
    if is_sized(name, MAX_TEXT_LEN) {
        Some(name)
    } else {
        None
    }
}

/// The address to listen at: the member's, or the default if it is absent or null. None if it is no address.
fn listen_of(value: &Value) -> Option<&str>
    ensures { option_map (λ listen. listen.now) result ≡ listen_of (view value.now) }
{
    match value.get("listen") {
        None | Some(Value::Null) => Some(DEFAULT_LISTEN),
        Some(listen) => listen_text(listen.as_str()?),
    }
}

/// The address to listen at that a text gives: the default if it is empty. None if it is no address.
fn listen_text(text: &str) -> Option<&str>
    ensures { option_map (λ listen. listen.now) result ≡ listen_text text.now }
{
    if text.is_empty() {
        Some(DEFAULT_LISTEN)
    } else if is_address(text) {
        Some(text)
    } else {
        None
    }
}

/// The address to connect to. None if it is absent or no address.
fn upstream_of(value: &Value) -> Option<&str>
    ensures { option_map (λ upstream. upstream.now) result ≡ upstream_of (view value.now) }
{
    let upstream = value.get("upstream")?.as_str()?;
    if is_address(upstream) {
        Some(upstream)
    } else {
        None
    }
}

/// Whether the proxy is enabled: true if the member is absent or null. None if it is no boolean.
fn enabled_of(value: &Value) -> Option<bool>
    ensures { result ≡ enabled_of (view value.now) }
{
    match value.get("enabled") {
        None | Some(Value::Null) => Some(true),
        Some(enabled) => enabled.as_bool(),
    }
}
