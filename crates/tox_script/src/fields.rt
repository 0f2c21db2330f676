//! Readers of the values that stand in a script's tables.
ghost use Rattle.std.specs.Prelude.{◌≡◌, map, option_map, IfOk, IfErr, Ok, Err};
ghost use Rattle.std.specs.List.{list_all};
ghost use Rattle.toml.specs.Data.{get};
ghost use Rattle.toml.specs.View.{items_view, table_view, view};
ghost use Rattle.tox_script.specs.fields.Fields.{all_tables, has_only, is_among, member_keys, sized_text, tables, tables_of, whole, whole_between};

pub(crate) mod attributes;
pub(crate) mod document;
pub(crate) mod rule_fields;
pub(crate) mod toxic_fields;
pub(crate) mod toxicity;

use crate::fault::Field;
use toml::{Table, Value};
use tox_time::is_sized;

/// A text of 1 to `most` bytes.
pub(crate) fn sized_text(value: &Value, most: usize) -> Option<&str>
    ensures { option_map (λ text. text.now) result ≡ sized_text most (view value.now) }
{
    let text = value.as_str()?;
    if is_sized(text, most) {
        Some(text)
    } else {
        None
    }
}

/// A whole number from 0 on.
pub(crate) fn whole(value: &Value) -> Option<u64>
    ensures { result ≡ whole (view value.now) }
{
    let number = value.as_integer()?;
    if number >= 0 {
        Some(number as u64)
    } else {
        None
    }
}

/// A whole number in a range.
pub(crate) fn whole_between(value: &Value, least: u64, most: u64) -> Option<u64>
    ensures { result ≡ whole_between least most (view value.now) }
{
    let number = whole(value)?;
    if least <= number && number <= most {
        Some(number)
    } else {
        None
    }
}

/// The values of an array, where each is a table.
fn tables(value: &Value) -> Option<&[Value]>
    ensures { option_map (λ values. items_view values.now) result ≡ tables (view value.now) }
{
    let values = value.as_array()?;
    if all_tables(values) {
        Some(values)
    } else {
        None
    }
}

/// The values of a key's array of tables; none where the key is absent.
pub(crate) fn tables_of<'a>(table: &'a Value, key: &str, field: Field) -> Result<&'a [Value], Field>
    ensures ok { IfOk result
        (λ values. tables_of field (get key.now (view table.now)) ≡ Ok (items_view values.now)) }
    ensures err { IfErr result
        (λ fault. tables_of field (get key.now (view table.now)) ≡ Err fault) }
{
    match table.get(key) {
        None => Ok(&[]),
        Some(value) => tables(value).ok_or(field),
    }
}

fn all_tables(values: &[Value]) -> bool
    ensures { result ≡ all_tables (items_view values.now) }
{
    values.iter().all(|value| value.is_table())
}

/// Whether a table has no keys but these.
pub(crate) fn has_only(table: &Value, keys: &[&str]) -> bool
    ensures { result ≡ has_only (map (λ key. key.now) keys.now) (view table.now) }
{
    match table.as_table() {
        Some(members) => all_among(members, keys),
        None => true,
    }
}

fn all_among(members: &Table, keys: &[&str]) -> bool
    ensures { result
        ≡ list_all (is_among (map (λ key. key.now) keys.now))
        (member_keys (table_view members.now)) }
{
    members.keys().all(|key| is_among(key.as_str(), keys))
}

fn is_among(key: &str, keys: &[&str]) -> bool
    ensures { result ≡ is_among (map (λ key. key.now) keys.now) key.now }
{
    keys.iter().any(|other| *other == key)
}
