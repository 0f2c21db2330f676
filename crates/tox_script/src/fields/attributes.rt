//! The attributes of a toxic.
ghost use Rattle.std.specs.Prelude.{◌≡◌, option_map, IfOk};
ghost use Rattle.std.specs.List.{list_all};
ghost use Rattle.toml.specs.View.{table_view, view};
ghost use Rattle.tox_defs.specs.Toxic.{IsInRange, attributes_of};
ghost use Rattle.tox_script.specs.fields.Attributes.{are_known, toxic_with, value_in, values_in};
ghost use Rattle.tox_script.specs.fields.Fields.{has_only, is_among, member_keys};

use crate::fields::whole;
use arrayvec::ArrayVec;
use toml::{Table, Value};
use tox_defs::{ABSENT_VALUE, MAX_ATTRIBUTES, Toxic, ToxicFault};

/// A toxic with a table of attributes in place of its own, where an absent one is 0.
pub(crate) fn toxic_with(toxic: &Toxic, attributes: Option<&Value>) -> Result<Toxic, ToxicFault>
    ensures value { result
        ≡ toxic_with toxic.now (option_map (λ table. view table.now) attributes.entry) }
    ensures in_range { IfOk result IsInRange }
{
    if !are_known(toxic, attributes) {
        return Err(ToxicFault::UnknownAttribute);
    }
    let values = values_in(toxic, attributes).ok_or(ToxicFault::OutOfRange)?;
    toxic.with_values(&values)
}

/// The values of the toxic's attributes in order, where each is a whole number.
fn values_in(toxic: &Toxic, attributes: Option<&Value>) -> Option<ArrayVec<u64, MAX_ATTRIBUTES>>
    ensures { option_map (λ values. values.items) result
        ≡ values_in toxic.now (option_map (λ table. view table.now) attributes.entry) }
{
    let mut values = ArrayVec::new();
    for attribute in toxic.attributes() {
        values.push(value_in(attributes, attribute.name)?);
    }
    Some(values)
}

/// Whether the toxic has each of the attributes.
fn are_known(toxic: &Toxic, attributes: Option<&Value>) -> bool
    ensures { result ≡ are_known toxic.now (option_map (λ table. view table.now) attributes.entry) }
{
    match attributes {
        Some(table) => has_only_known(table, toxic),
        None => true,
    }
}

/// Whether a table has no keys but attributes of the toxic.
fn has_only_known(table: &Value, toxic: &Toxic) -> bool
    ensures { result ≡ has_only (attributes_of toxic.now) (view table.now) }
{
    match table.as_table() {
        Some(members) => all_known(members, toxic),
        None => true,
    }
}

fn all_known(members: &Table, toxic: &Toxic) -> bool
    ensures { result
        ≡ list_all (is_among (attributes_of toxic.now)) (member_keys (table_view members.now)) }
{
    members.keys().all(|key| toxic.has_attribute(key.as_str()))
}

/// The value of an attribute: a whole number, 0 where it is absent.
fn value_in(attributes: Option<&Value>, key: &str) -> Option<u64>
    ensures { result ≡ value_in (option_map (λ table. view table.now) attributes.entry) key.now }
{
    let Some(table) = attributes else {
        return Some(ABSENT_VALUE);
    };
    match table.get(key) {
        Some(value) => whole(value),
        None => Some(ABSENT_VALUE),
    }
}
