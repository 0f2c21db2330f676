//! The fields of a rule's table.
ghost use Rattle.std.specs.Prelude.{◌≡◌, IfOk, IfErr, Ok, Err};
ghost use Rattle.toml.specs.View.{view};
ghost use Rattle.tox_script.specs.Rule.{first_field, last_field, proxy_field, rule_fields};
ghost use Rattle.tox_script.specs.Views.{rule_fields_view};

use crate::fault::Field;
use crate::fields::{has_only, sized_text, tables_of, whole_between};
use toml::Value;
use tox_time::MAX_TEXT_LEN;
use tox_words::MAX_CONNECTIONS;

/// The fields of a rule's table, lent from it. The toxics are tables.
#[derive(Clone, Copy)]
pub(crate) struct RuleFields<'a> {
    pub(crate) proxy: &'a str,
    pub(crate) first: u64,
    pub(crate) last: Option<u64>,
    pub(crate) toxics: &'a [Value],
}

impl<'a> RuleFields<'a> {
    /// The fields, or the first that isn't as it must be.
    pub(crate) fn read(table: &'a Value) -> Result<RuleFields<'a>, Field>
        ensures ok { IfOk result
            (λ fields. rule_fields (view table.now) ≡ Ok (rule_fields_view fields)) }
        ensures err { IfErr result (λ field. rule_fields (view table.now) ≡ Err field) }
    {
        let proxy = proxy_field(table)?;
        let first = first_field(table)?;
        let last = last_field(table, first)?;
        let toxics = tables_of(table, "toxic", Field::Toxic)?;
        if !has_only(table, &["proxy", "first", "last", "toxic"]) {
            return Err(Field::Unknown);
        }
        Ok(RuleFields {
            proxy,
            first,
            last,
            toxics,
        })
    }
}

fn proxy_field(table: &Value) -> Result<&str, Field>
    ensures ok { IfOk result (λ proxy. proxy_field (view table.now) ≡ Ok proxy.now) }
    ensures err { IfErr result (λ field. proxy_field (view table.now) ≡ Err field) }
{
    match table.get("proxy") {
        None => Err(Field::Proxy),
        Some(value) => sized_text(value, MAX_TEXT_LEN).ok_or(Field::Proxy),
    }
}

fn first_field(table: &Value) -> Result<u64, Field>
    ensures { result ≡ first_field (view table.now) }
{
    match table.get("first") {
        None => Err(Field::First),
        Some(value) => whole_between(value, 1, MAX_CONNECTIONS).ok_or(Field::First),
    }
}

/// The last connection, where there is one.
fn last_field(table: &Value, first: u64) -> Result<Option<u64>, Field>
    ensures { result ≡ last_field first (view table.now) }
{
    match table.get("last") {
        None => Ok(None),
        Some(value) => match whole_between(value, first, MAX_CONNECTIONS) {
            Some(last) => Ok(Some(last)),
            None => Err(Field::Last),
        },
    }
}
