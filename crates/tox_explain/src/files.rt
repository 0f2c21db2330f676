//! What there is in place of a proxy or a stream that was named, and the system's reason.
use crate::inputs::Inputs;
use crate::quoted::Quoted;
use std::alloc::{AllocError, Global};
use std::fmt::Display;
use tox_config::{ProxyDef, read_populate};
use tox_text::nearest;
use tox_time::Stream;

/// Adds why the system refused something.
pub(crate) fn add_reason<D: Display>(text: &mut String, reason: &D) -> Result<(), AllocError> {
    write!(text, "  {reason}\n")
}

/// Adds the proxies that there are.
pub(crate) fn add_proxies(
    text: &mut String,
    alloc: Global,
    name: &str,
    inputs: &Inputs<'_>,
) -> Result<(), AllocError> {
    let Some(config) = inputs.config else {
        return Ok(());
    };
    let Ok(proxies) = read_populate(alloc, config.bytes) else {
        return Ok(());
    };
    let file = Quoted(config.name);
    write!(text, "  {file} has")?;
    let mut separator = " ";
    for proxy in &proxies {
        let name = Quoted(proxy.name.as_str());
        write!(text, "{separator}{name}")?;
        separator = ", ";
    }
    if proxies.is_empty() {
        text.push_str(" no proxy")?;
    }
    if 1 < proxies.len() {
        add_near(text, alloc, name, &proxies)?;
    }
    text.push_str("\n")
}

/// Adds the proxy whose name is nearest.
fn add_near(
    text: &mut String,
    alloc: Global,
    name: &str,
    proxies: &[ProxyDef],
) -> Result<(), AllocError> {
    let mut names = Vec::new(alloc);
    for proxy in proxies {
        names.push(proxy.name.as_str())?;
    }
    match nearest(alloc, name, &names)? {
        Some(near) => {
            let near = Quoted(near);
            write!(text, "; {near}?")
        }
        None => Ok(()),
    }
}

/// Adds the stream that was named, and the one that was meant.
pub(crate) fn add_stream(
    text: &mut String,
    alloc: Global,
    inputs: &Inputs<'_>,
) -> Result<(), AllocError> {
    let Some(stream) = inputs.stream else {
        return Ok(());
    };
    let shown = Quoted(stream);
    write!(text, "  --stream {shown}")?;
    if let Some(meant) = meant_stream(alloc, stream)? {
        write!(text, "; {meant}?")?;
    }
    text.push_str("\n")
}

/// The stream that a name was meant to be: one that begins with it, or the nearest.
pub(crate) fn meant_stream(alloc: Global, name: &str) -> Result<Option<&'static str>, AllocError> {
    let lower = name.to_lowercase(alloc)?;
    let names = [Stream::Upstream.name(), Stream::Downstream.name()];
    for stream in names {
        if !lower.is_empty() && stream.starts_with(lower.as_str()) {
            return Ok(Some(stream));
        }
    }
    nearest(alloc, lower.as_str(), &names)
}
