//! A toxic with its stream and its name.
ghost use Rattle.std.specs.Prelude.{◌≡◌, string_bytes, IfOk, IfErr, Ok, Err};
ghost use Rattle.tox_defs.specs.chain.Chain.{IsEntry};
ghost use Rattle.tox_script.specs.chains.Toxic.{named_toxic};
ghost use Rattle.tox_script.specs.Views.{fields_view, toxic_view};

use crate::fields::attributes::toxic_with;
use crate::fields::toxic_fields::ToxicFields;
use crate::fields::toxicity::{is_decimal, toxicity_in};
use crate::version::Version;
use std::alloc::{AllocError, Global};
use tox_defs::{Entry, Toxic, ToxicFault};
use tox_time::Stream;

/// A toxic of a rule. Its name is lent from the document, or None for the default.
#[derive(Clone, Copy)]
pub(crate) struct NamedToxic<'a> {
    pub(crate) stream: Stream,
    pub(crate) entry: Entry,
    given_name: Option<&'a str>,
    /// Whether the toxicity is given as a decimal text.
    pub(crate) is_decimal: bool,
}

impl<'a> NamedToxic<'a> {
    /// The toxic of a table's fields. Fails if there is no such type, then if the toxicity is not in thousandths, then as its
    /// attributes do.
    pub(crate) fn of(
        version: Version,
        fields: &ToxicFields<'a>,
    ) -> Result<NamedToxic<'a>, ToxicFault>
        ensures ok { IfOk result
            (λ toxic. named_toxic version (fields_view fields.now) ≡ Ok (toxic_view toxic)) }
        ensures err { IfErr result
            (λ fault. named_toxic version (fields_view fields.now) ≡ Err fault) }
        ensures fits { IfOk result (λ toxic. IsEntry toxic.entry) }
    {
        let zeros = Toxic::of_name(fields.type_name).ok_or(ToxicFault::UnknownType)?;
        let toxicity = toxicity_in(version, fields.toxicity).ok_or(
            ToxicFault::ToxicityNotThousandths,
        )?;
        let toxic = toxic_with(&zeros, fields.attributes)?;
        Ok(NamedToxic {
            stream: fields.stream,
            entry: Entry { toxic, toxicity },
            given_name: fields.name,
            is_decimal: is_decimal(fields.toxicity),
        })
    }

    /// The name, in a text of its own.
    pub(crate) fn name(&self, alloc: Global) -> Result<String, AllocError>
        ensures { IfOk result (λ name. string_bytes name ≡ (toxic_view self.now).name) }
    {
        match self.given_name {
            Some(name) => String::from_str(alloc, name),
            None => { format!(in alloc; "{}_{}", self.entry.toxic.name(), self.stream.name()) }
        }
    }
}
