//! The whole number that a written value of an attribute means.
use crate::unit::{KeyUnit, Scale};
use std::alloc::{AllocError, Global};

/// How many digits of a number are read.
const MAX_DIGITS: usize = 9;

/// A millionth, as which the digits behind a point are counted.
const MILLION: u64 = 1_000_000;

/// The whole number of an attribute's unit that a text means, such as 1500 for `1.5s`. None if it isn't sure, or isn't whole.
pub(crate) fn meant_value(
    alloc: Global,
    type_name: &str,
    attribute: &str,
    text: &str,
) -> Result<Option<u64>, AllocError> {
    let Some(unit) = KeyUnit::of(type_name, attribute) else {
        return Ok(None);
    };
    let lower = text.trim().to_lowercase(alloc)?;
    Ok(meant_in(unit, lower.as_str()))
}

/// The whole number of a unit that a text in small letters means.
pub(crate) fn meant_in(unit: KeyUnit, text: &str) -> Option<u64> {
    let end = text
        .find(|letter: char| !letter.is_ascii_digit() && letter != '.')
        .unwrap_or(text.len());
    let (number, written) = (text.get(..end)?, text.get(end..)?.trim());
    let millionths = millionths_of(number)?;
    scaled(millionths, scale_of(unit, number, written)?)
}

/// How many of the unit's a written one is. A number alone has the unit, but a chance with a point is a part of 1.
fn scale_of(unit: KeyUnit, number: &str, written: &str) -> Option<Scale> {
    if !written.is_empty() {
        return unit.scale(written);
    }
    let is_part = unit == KeyUnit::Thousandths && number.contains('.');
    let times = if is_part { 1_000 } else { 1 };
    Some(Scale { times, per: 1 })
}

/// A decimal number in millionths.
fn millionths_of(number: &str) -> Option<u64> {
    let (whole, part) = number.split_once('.').unwrap_or((number, ""));
    if MAX_DIGITS < whole.len() || 6 < part.len() {
        return None;
    }
    let whole: u64 = if whole.is_empty() && !part.is_empty() {
        0
    } else {
        whole.parse().ok()?
    };
    let mut millionths = whole.checked_mul(MILLION)?;
    let mut digit = MILLION / 10;
    for letter in part.bytes() {
        let value = u64::from(letter.checked_sub(b'0')?);
        millionths = millionths.checked_add(value.checked_mul(digit)?)?;
        digit /= 10;
    }
    Some(millionths)
}

/// Some millionths times a scale, if that is a whole number.
fn scaled(millionths: u64, scale: Scale) -> Option<u64> {
    let product = millionths.checked_mul(scale.times)?;
    let divisor = scale.per.checked_mul(MILLION)?;
    if product.checked_rem(divisor)? == 0 {
        product.checked_div(divisor)
    } else {
        None
    }
}
