//! A whole populate file.
ghost use Rattle.std.specs.Prelude.{◌≡◌, ◌≢◌, ◌<◌, ◌≤◌, length, vec_len, map, position, IsTrue, IfOk, IfErr, Some, None, Ok, Err, OnOk};
ghost use Rattle.std.specs.List.{IsDistinct};
ghost use Rattle.std.specs.Str.{bytes_eq, is_utf8};
ghost use Rattle.serde_json.specs.View.{items_view, view};
ghost use Rattle.tox_config.specs.ConfigFaults.{IsConfigFault};
ghost use Rattle.tox_config.specs.LentProxy.{lent_view, put};
ghost use Rattle.tox_config.specs.Populate.{front_of, is_named, json_of, most_names, populate, populated};
ghost use Rattle.tox_config.specs.declared.fault.ConfigFault.TheVariants.{NotJson, OutOfMemory};

use crate::fault::ConfigFault;
use crate::lent_proxy::LentProxy;
use crate::proxy::ProxyDef;
use serde_json::Value;
use std::alloc::{AllocError, Global};

const MAX_PROXIES: usize = 64;

/// The proxies that a populate file defines, one for each name, in the order in which the names first stand.
///
/// The bytes are a JSON array of objects with the members `name`, `listen`, `upstream` and `enabled`; others are ignored.
/// Where `listen` is absent, null or empty it is `localhost:0`, and where `enabled` is absent or null it is true.
///
/// # Errors
///
/// The fault of the first faulty place, and within a place the first in the order of [`ConfigFault`]. Out of memory may
/// stand in its place.
pub fn read_populate(alloc: Global, bytes: &[u8]) -> Result<Vec<ProxyDef>, ConfigFault>
    ensures ok { IfOk result (λ defs. populate bytes.now ≡ Ok defs.items) }
    ensures err { IfErr result (IsConfigFault (populate bytes.now)) }
    ensures distinct { IfOk result
        (λ defs. IsDistinct bytes_eq (map (λ def. def.name) defs.items)) }
    ensures few { IfOk result (λ defs. vec_len defs ≤ most_names) }
    // Bytes that are not UTF-8 are refused before any request for memory.
    ensures memory { result ≡ Err OutOfMemory
        → IsTrue (is_utf8 bytes.now) × (0 < length bytes.now) }
{
    let value = read_json(alloc, bytes)?;
    let Some(values) = value.as_array() else {
        return Err(ConfigFault::NotArray);
    };
    let entries = entries_of(alloc, values)?;
    Ok(defs_of(alloc, &entries)?)
}

/// The value of a JSON text.
pub(crate) fn read_json(alloc: Global, bytes: &[u8]) -> Result<Value, ConfigFault>
    ensures ok { IfOk result (λ value. json_of bytes.now ≡ Some (view value)) }
    ensures err { IfErr result (λ fault. fault ≢ OutOfMemory
        → (fault ≡ NotJson) × (json_of bytes.now ≡ None)) }
    ensures memory { result ≡ Err OutOfMemory
        → IsTrue (is_utf8 bytes.now) × (0 < length bytes.now) }
{
    let Ok(text) = str::from_utf8(bytes) else {
        return Err(ConfigFault::NotJson);
    };
    match Value::from_str(alloc, text) {
        Ok(value) => Ok(value),
        Err(error) if error.is_memory() => Err(ConfigFault::OutOfMemory),
        Err(_) => Err(ConfigFault::NotJson),
    }
}

/// One entry for each name that some values have.
fn entries_of(alloc: Global, values: &[Value]) -> Result<Vec<LentProxy<'_>>, ConfigFault>
    ensures ok { IfOk result (λ entries. populated (front_of 0 (items_view values.now))
        ≡ Ok (map lent_view entries.items)) }
    ensures err { IfErr result (IsConfigFault (populated (front_of 0 (items_view values.now)))) }
{
    let mut entries = Vec::new(alloc);
    for (place, value) in values.iter().enumerate() {
        put(&mut entries, LentProxy::read(value, place)?)?;
        if MAX_PROXIES < entries.len() {
            return Err(ConfigFault::TooMany(place));
        }
    }
    Ok(entries)
}

/// Puts an entry in the place of the one of its name, or last.
fn put<'a>(entries: &mut Vec<LentProxy<'a>>, entry: LentProxy<'a>) -> Result<(), AllocError>
    ensures { OnOk result (map lent_view entries.new.items
        ≡ put (lent_view entry.entry) (map lent_view entries.old.items)) }
{
    match position_of(entries, entry.name) {
        Some(index) => entries[index] = entry,
        None => entries.push(entry)?,
    }
    Ok(())
}

/// The place of the first entry of a name.
fn position_of(entries: &[LentProxy<'_>], name: &str) -> Option<usize>
    ensures { result ≡ position (λ entry. is_named name.now (lent_view entry)) entries.now }
{
    entries.iter().position(|entry| entry.name == name)
}

/// The definitions that some entries stand for.
fn defs_of(alloc: Global, entries: &[LentProxy<'_>]) -> Result<Vec<ProxyDef>, AllocError>
    ensures { IfOk result (λ defs. defs.items ≡ map lent_view entries.now) }
{
    let mut defs = Vec::with_capacity(alloc, entries.len())?;
    for entry in entries {
        defs.push(entry.to_def(alloc)?)?;
    }
    Ok(defs)
}
