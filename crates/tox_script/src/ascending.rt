//! The keys of the maps in a value ascend.
ghost use Rattle.std.specs.Prelude.{◌≡◌, true};
ghost use Rattle.toml.specs.Data.{is_sorted, items_are_sorted, members_are_sorted};
ghost use Rattle.toml.specs.View.{items_view, table_view, view};

use toml::{Table, Value};

/// A lemma as a function: the keys of each table in a value ascend. It walks the value to ask each map.
#[cycle(ascending)]
pub(crate) fn ascends(value: &Value)
    ensures { is_sorted (view value.now) ≡ true }
{
    match value {
        Value::Array(items) => items_ascend(items),
        Value::Table(members) => members_ascend(members),
        _ => {}
    }
}

#[cycle(ascending)]
fn items_ascend(items: &[Value])
    ensures { items_are_sorted (items_view items.now) ≡ true }
{
    'items: for item in items {
        ascends(item);
    }
}

#[cycle(ascending)]
fn members_ascend(members: &Table)
    ensures { members_are_sorted (table_view members.now) ≡ true }
{
    'members: for (_key, member) in members.iter() {
        ascends(member);
    }
}
