//! The name that is nearest to a mistyped one.
ghost use Rattle.std.specs.Prelude.{◌≡◌, IfOk, length, map, option_map};
ghost use Rattle.std.specs.Str.{chars};
ghost use Rattle.tox_text.specs.Nearest.{at_distance, distance, nearest};

use std::alloc::{AllocError, Global};
use strsim::osa_distance;

/// The name that is nearest to a mistyped one: the first at distance 1, or else the first at distance 2.
/// Only a distance below half of the mistyped name's length counts.
///
/// The distance is the optimal string alignment of letters: how many are put in, left out, changed or swapped with the next one.
pub fn nearest<'a>(
    alloc: Global,
    name: &str,
    names: &[&'a str],
) -> Result<Option<&'a str>, AllocError>
    ensures { IfOk result (λ found. option_map (λ near. near.now) found
        ≡ nearest name.now (map (λ other. other.now) names.now)) }
{
    let length = letter_count(name);
    if length <= 2 {
        return Ok(None);
    }
    if let Some(found) = at_distance(alloc, name, names, 1)? {
        return Ok(Some(found));
    }
    if length <= 4 {
        return Ok(None);
    }
    at_distance(alloc, name, names, 2)
}

/// How many letters a name has.
fn letter_count(name: &str) -> usize
    ensures { result ≡ length (chars name.now) }
{
    name.chars().count()
}

/// The first name at a distance.
fn at_distance<'a>(
    alloc: Global,
    name: &str,
    names: &[&'a str],
    distance: usize,
) -> Result<Option<&'a str>, AllocError>
    ensures { IfOk result (λ found. option_map (λ near. near.now) found
        ≡ at_distance distance name.now (map (λ other. other.now) names.now)) }
{
    for other in names {
        if osa_distance(alloc, name, other)? == distance {
            return Ok(Some(*other));
        }
    }
    Ok(None)
}
