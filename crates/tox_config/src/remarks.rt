//! What of a populate file is taken, and may not be meant: members that aren't read, and names that stand more than once.
ghost use Rattle.std.specs.Prelude.{◌≡◌, ◌++◌, ◌<◌, Err, IfErr, IfOk, IsTrue, OnOk, length};
ghost use Rattle.std.specs.Str.{is_utf8};
ghost use Rattle.serde_json.specs.Find.{as_object};
ghost use Rattle.serde_json.specs.View.{items_view, members_view, view};
ghost use Rattle.tox_config.specs.ConfigFaults.{IsConfigFault};
ghost use Rattle.tox_config.specs.Populate.{populate};
ghost use Rattle.tox_config.specs.Remarks.{IsNoted, count_named, is_read, name_or_none, none_noted, repeated_if, repeated_in, unread_among, unread_if, unread_in, unread_of};
ghost use Rattle.tox_config.specs.declared.fault.ConfigFault.TheVariants.{OutOfMemory};

use crate::fault::ConfigFault;
use crate::lent_proxy::proxy_name;
use crate::populate::read_json;
use crate::proxy::ProxyDef;
use crate::repeated_name::RepeatedName;
use crate::unread_member::UnreadMember;
use serde_json::{Map, Value};
use std::alloc::{AllocError, Global};
use std::marker::Model;

/// What of a populate file is taken, and may not be meant. Contracts see both lists.
#[derive(Debug, Drop)]
pub struct Remarks {
    /// The members that aren't read, in the order of their objects.
    pub unread: Vec<UnreadMember>,
    /// The names of proxies that more than one object has, in the proxies' order.
    pub repeated: Vec<RepeatedName>,
}

impl Model for Remarks {
    ghost use Rattle.tox_config.specs.Remarks.{Noted};

    ghost Value = { Noted };

    ghost view = { λ remarks. record {
      unread = remarks.unread.items;
      repeated = remarks.repeated.items;
    } };
}

impl Remarks {
    /// Those of no file.
    pub fn none(alloc: Global) -> Remarks
        ensures { result ≡ none_noted }
    {
        Remarks {
            unread: Vec::new(alloc),
            repeated: Vec::new(alloc),
        }
    }
}

/// The remarks of a populate file that defines these proxies.
///
/// A member that stands twice in one object can't be seen: the value that is read has the last one.
///
/// # Errors
///
/// [`ConfigFault::NotJson`] and [`ConfigFault::NotArray`] as [`read_populate`](crate::read_populate) has them. Out of memory may stand in their place.
pub fn read_remarks(
    alloc: Global,
    bytes: &[u8],
    proxies: &[ProxyDef],
) -> Result<Remarks, ConfigFault>
    ensures ok { IfOk result (IsNoted bytes.now proxies.now) }
    ensures err { IfErr result (IsConfigFault (populate bytes.now)) }
    // Bytes that are not UTF-8 are refused before any request for memory.
    ensures memory { result ≡ Err OutOfMemory
        → IsTrue (is_utf8 bytes.now) × (0 < length bytes.now) }
{
    let value = read_json(alloc, bytes)?;
    let Some(values) = value.as_array() else {
        return Err(ConfigFault::NotArray);
    };
    let unread = unread_in(alloc, values)?;
    let repeated = repeated_in(alloc, values, proxies)?;
    Ok(Remarks { unread, repeated })
}

/// The names of proxies that more than one object has.
fn repeated_in(
    alloc: Global,
    values: &[Value],
    proxies: &[ProxyDef],
) -> Result<Vec<RepeatedName>, AllocError>
    ensures { IfOk result
        (λ repeated. repeated.items ≡ repeated_in (items_view values.now) proxies.now) }
{
    let mut repeated = Vec::new(alloc);
    for proxy in proxies {
        let count = count_named(&proxy.name, values);
        add_repeated(alloc, &mut repeated, &proxy.name, count)?;
    }
    Ok(repeated)
}

/// Adds a name that more than one object has.
fn add_repeated(
    alloc: Global,
    repeated: &mut Vec<RepeatedName>,
    name: &str,
    count: usize,
) -> Result<(), AllocError>
    ensures { OnOk result (repeated.new.items ≡ repeated.old.items ++ repeated_if name.now count) }
{
    if 1 < count {
        let name = String::from_str(alloc, name)?;
        repeated.push(RepeatedName { name, count })?;
    }
    Ok(())
}

/// How many objects have a proxy of this name.
fn count_named(name: &str, values: &[Value]) -> usize
    ensures { result ≡ count_named name.now (items_view values.now) }
{
    let mut count = 0;
    for value in values {
        if name_or_none(value) == name {
            count += 1;
        }
    }
    count
}

/// The members of some objects that aren't read, in order.
fn unread_in(alloc: Global, values: &[Value]) -> Result<Vec<UnreadMember>, AllocError>
    ensures { IfOk result (λ unread. unread.items ≡ unread_in (items_view values.now)) }
{
    let mut unread = Vec::new(alloc);
    for value in values {
        add_object(alloc, &mut unread, value)?;
    }
    Ok(unread)
}

/// Adds the members of an object that aren't read.
fn add_object(
    alloc: Global,
    unread: &mut Vec<UnreadMember>,
    value: &Value,
) -> Result<(), AllocError>
    ensures { OnOk result (unread.new.items
        ≡ unread.old.items ++ unread_of (name_or_none (view value.now)) (as_object (view value.now))) }
{
    let proxy = name_or_none(value);
    match value.as_object() {
        Some(members) => add_members(alloc, unread, proxy, members),
        None => Ok(()),
    }
}

/// The name of an object's proxy, or an empty one.
fn name_or_none(value: &Value) -> &str
    ensures { result.now ≡ name_or_none (view value.now) }
{
    match proxy_name(value) {
        Some(name) => name,
        None => "",
    }
}

/// Adds those of some members that aren't read.
fn add_members(
    alloc: Global,
    unread: &mut Vec<UnreadMember>,
    proxy: &str,
    members: &Map<String, Value>,
) -> Result<(), AllocError>
    ensures { OnOk result (unread.new.items
        ≡ unread.old.items ++ unread_among proxy.now (members_view members.now.entries)) }
{
    for (key, _member) in members.iter() {
        add_member(alloc, unread, proxy, key.as_str())?;
    }
    Ok(())
}

/// Adds a member, unless it is read.
fn add_member(
    alloc: Global,
    unread: &mut Vec<UnreadMember>,
    proxy: &str,
    key: &str,
) -> Result<(), AllocError>
    ensures { OnOk result
        (unread.new.items ≡ unread.old.items ++ unread_if (is_read key.now) proxy.now key.now) }
{
    if is_read(key) {
        return Ok(());
    }
    let proxy = String::from_str(alloc, proxy)?;
    let key = String::from_str(alloc, key)?;
    unread.push(UnreadMember { proxy, key })?;
    Ok(())
}

/// Whether a member of this name is read.
fn is_read(key: &str) -> bool
    ensures { result ≡ is_read key.now }
{
    key == "name" || key == "listen" || key == "upstream" || key == "enabled"
}
