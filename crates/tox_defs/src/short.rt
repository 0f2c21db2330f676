//! Short forms: a toxic and its toxicity in one word, as `latency:latency=100,toxicity=500`.
ghost use Rattle.std.specs.Prelude.{◌≡◌, ℕ, ◌≤◌, [], IfOk};
ghost use Rattle.tox_defs.specs.short.Pairs.{pairs_of};
ghost use Rattle.tox_defs.specs.short.Printed.{printed_short};
ghost use Rattle.tox_defs.specs.short.Short.{short_of, pair_values, with_name, with_pairs};
ghost use Rattle.tox_defs.specs.Toxic.{IsInRange};
ghost use Rattle.tox_defs.specs.declared.toxic.Toxic.{Toxic};

pub(crate) mod pairs;

use crate::attributes::attribute::ABSENT_VALUE;
use crate::attributes::values::MAX_ATTRIBUTES;
use crate::chain::MAX_TOXICITY;
use crate::fault::{ShortFault, ToxicFault};
use crate::toxic::Toxic;
use arrayvec::ArrayVec;
use pairs::{are_known, are_pairs, has_double_key, is_word, value_at};

/// The toxic that a short form names, with its toxicity in thousandths.
///
/// A short form is a type, or a type, a colon and one or more `key=value` separated by commas, where
/// a key is an attribute of the type, or `toxicity`. A type and a key are made of `a` to `z` and
/// `_`, and a value of 1 to 18 decimal digits. An attribute that is absent is 0, and an absent
/// toxicity 1000.
///
/// Fails in this order: [`ShortFault::BadForm`], [`ToxicFault::UnknownType`],
/// [`ShortFault::DoubleKey`], [`ToxicFault::ToxicityNotThousandths`] for a toxicity above 1000,
/// [`ToxicFault::UnknownAttribute`], and as [`Toxic::check`] does.
pub fn read_short(text: &str) -> Result<(Toxic, u16), ShortFault>
    ensures value { result ≡ short_of text.now }
    ensures fits { IfOk result (λ read. IsInRange read.0 × (read.1 ≤ 1000)) }
    ensures reads_back { (toxic : Toxic) (toxicity : ℕ) → IsInRange toxic → toxicity ≤ 1000
        → text.now ≡ printed_short toxic toxicity → result ≡ Ok (toxic, toxicity) }
{
    match text.split_once(':') {
        Some((name, pairs)) => read_pairs(name, pairs),
        None => read_name(text),
    }
}

/// The toxic of a type's name alone.
fn read_name(name: &str) -> Result<(Toxic, u16), ShortFault>
    ensures value { result ≡ with_name name.now [] }
    ensures fits { IfOk result (λ read. IsInRange read.0 × (read.1 ≤ 1000)) }
{
    if !is_word(name) {
        return Err(ShortFault::BadForm);
    }
    let toxic = Toxic::of_name(name).ok_or(ToxicFault::UnknownType)?;
    let toxic = toxic.with_values(&[])?;
    Ok((toxic, MAX_TOXICITY))
}

/// The toxic of a type's name with these pairs.
fn read_pairs(name: &str, pairs: &str) -> Result<(Toxic, u16), ShortFault>
    ensures value { result ≡ with_name name.now (pairs_of pairs.now) }
    ensures fits { IfOk result (λ read. IsInRange read.0 × (read.1 ≤ 1000)) }
{
    if !is_word(name) || !are_pairs(pairs) {
        return Err(ShortFault::BadForm);
    }
    let toxic = Toxic::of_name(name).ok_or(ToxicFault::UnknownType)?;
    with_pairs(&toxic, pairs)
}

/// A toxic with the values of these pairs.
fn with_pairs(toxic: &Toxic, pairs: &str) -> Result<(Toxic, u16), ShortFault>
    ensures value { result ≡ with_pairs toxic.now (pairs_of pairs.now) }
    ensures fits { IfOk result (λ read. IsInRange read.0 × (read.1 ≤ 1000)) }
{
    if has_double_key(pairs) {
        return Err(ShortFault::DoubleKey);
    }
    let toxicity = value_at(pairs, "toxicity").unwrap_or(u64::from(MAX_TOXICITY));
    if toxicity > u64::from(MAX_TOXICITY) {
        return Err(ShortFault::Toxic(ToxicFault::ToxicityNotThousandths));
    }
    if !are_known(toxic, pairs) {
        return Err(ShortFault::Toxic(ToxicFault::UnknownAttribute));
    }
    let toxic = toxic.with_values(&pair_values(toxic, pairs))?;
    Ok((toxic, toxicity as u16))
}

/// The values of the toxic's attributes, in order, where an absent one is 0.
fn pair_values(toxic: &Toxic, pairs: &str) -> ArrayVec<u64, MAX_ATTRIBUTES>
    ensures { result.items ≡ pair_values toxic.now (pairs_of pairs.now) }
{
    let mut values = ArrayVec::new();
    for attribute in toxic.attributes() {
        values.push(value_at(pairs, attribute.name).unwrap_or(ABSENT_VALUE));
    }
    values
}
