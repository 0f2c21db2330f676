//! Toxicities, in thousandths.
ghost use Rattle.std.specs.Prelude.{◌≡◌, ◌<◌, ◌≤◌, option_map, IfSome};
ghost use Rattle.toml.specs.View.{view};
ghost use Rattle.tox_script.specs.fields.Toxicity.{fraction, is_decimal, thousandths, written_toxicity, toxicity_in, with_unit};

use crate::fields::whole_between;
use crate::version::Version;
use toml::Value;
use tox_defs::MAX_TOXICITY;
use tox_time::parse_decimal;

/// Whether a toxicity is given as a text, which is a decimal number.
pub(crate) fn is_decimal(value: Option<&Value>) -> bool
    ensures { result ≡ is_decimal (option_map (λ value. view value.now) value.entry) }
{
    match value {
        Some(value) => value.as_str().is_some(),
        None => false,
    }
}

/// The toxicity of a toxic's table.
pub(crate) fn toxicity_in(version: Version, value: Option<&Value>) -> Option<u16>
    ensures value { result
        ≡ toxicity_in version (option_map (λ value. view value.now) value.entry) }
    ensures bound { IfSome result (λ toxicity. toxicity ≤ 1000) }
{
    match value {
        None => Some(MAX_TOXICITY),
        Some(value) => {
            let toxicity = written_toxicity(version, value)?;
            Some(toxicity as u16)
        }
    }
}

/// A whole number up to 1000, and in version 2 the thousandths of a text.
fn written_toxicity(version: Version, value: &Value) -> Option<u64>
    ensures value { result ≡ written_toxicity version (view value.now) }
    ensures bound { IfSome result (λ toxicity. toxicity ≤ 1000) }
{
    match (version, value.as_str()) {
        (Version::Two, Some(text)) => thousandths(text),
        _ => whole_between(value, 0, u64::from(MAX_TOXICITY)),
    }
}

/// The thousandths of a decimal number from 0 to 1 with up to three digits behind its point.
fn thousandths(text: &str) -> Option<u64>
    ensures value { result ≡ thousandths text.now }
    ensures bound { IfSome result (λ toxicity. toxicity ≤ 1000) }
{
    match text.split_once('.') {
        Some((unit, digits)) => with_unit(unit, fraction(digits)?),
        None => with_unit(text, 0),
    }
}

/// The sum of a unit, 0 or 1, and some thousandths, up to 1000.
fn with_unit(unit: &str, part: u64) -> Option<u64>
    requires { part < 1000 }
    ensures value { result ≡ with_unit unit.now part }
    ensures bound { IfSome result (λ toxicity. toxicity ≤ 1000) }
{
    let total = parse_decimal(unit, 1, 1)? * 1000 + part;
    if total <= u64::from(MAX_TOXICITY) {
        Some(total)
    } else {
        None
    }
}

/// The thousandths of one to three digits behind a point.
fn fraction(digits: &str) -> Option<u64>
    ensures value { result ≡ fraction digits.now }
    ensures bound { IfSome result (λ part. part < 1000) }
{
    let number = parse_decimal(digits, 3, 999)?;
    match digits.len() {
        1 => Some(number * 100),
        2 => Some(number * 10),
        _ => Some(number),
    }
}
