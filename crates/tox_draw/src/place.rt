//! Where the room between two lines is greatest, for a word that stands there.
ghost use Rattle.std.specs.Prelude.{◌≡◌, ◌≤◌, ◌<◌, ◌==◌, length, position, IfOk, IfSome};
ghost use Rattle.std.specs.Option.{ForSome};
ghost use Rattle.tox_draw.specs.Places.{count_of, first_of, greatest_of, middle_of, place_among, place_of, rooms};

use crate::path::LEFT;
use std::alloc::{AllocError, Global};

/// A point of the picture.
#[derive(Clone, Copy)]
pub(crate) struct Point {
    pub(crate) x: u64,
    pub(crate) y: u64,
}

/// The place of a word in the area between two lines up to a column, if there is room for it: it keeps so many columns free on
/// either side, and has at least so much room above and below.
pub(crate) fn place_of(
    alloc: Global,
    upper: &[u16],
    lower: &[u16],
    end: usize,
    half: usize,
    least: u16,
) -> Result<Option<Point>, AllocError>
    requires upper { end < length upper.now }
    requires lower { end < length lower.now }
    requires narrow { half ≤ 1000 }
    requires columns { end ≤ 750 }
    ensures value { IfOk result (λ place. place ≡ place_of upper.now lower.now end half least) }
    ensures near { IfOk result (λ place. ForSome place (λ point. point.y ≤ 131_072)) }
{
    if end < 2 * half {
        return Ok(None);
    }
    place_between(
        alloc,
        &upper[..=end - 2 * half],
        &lower[2 * half..=end],
        half,
        least,
    )
}

/// The place of a word between the upper line before it and the lower line behind it.
fn place_between(
    alloc: Global,
    uppers: &[u16],
    lowers: &[u16],
    half: usize,
    least: u16,
) -> Result<Option<Point>, AllocError>
    requires narrow { half ≤ 1000 }
    requires columns { length uppers.now ≤ 1000 }
    ensures value { IfOk result (λ place.
        place ≡ place_among uppers.now (rooms uppers.now lowers.now) half least) }
    ensures near { IfOk result (λ place. ForSome place (λ point. point.y ≤ 131_072)) }
{
    let rooms = rooms(alloc, uppers, lowers)?;
    Ok(place_among(uppers, &rooms, half, least))
}

#[tactic(auto, unfolding(crate::specs::Places::place_among))]
/// The place at the middle of the first run of the greatest of these rooms, if that isn't below the least one.
fn place_among(uppers: &[u16], rooms: &[u16], half: usize, least: u16) -> Option<Point>
    requires narrow { half ≤ 1000 }
    requires columns { length rooms.now ≤ 1000 }
    ensures value { result ≡ place_among uppers.now rooms.now half least }
    ensures near { ForSome result (λ point. point.y ≤ 131_072) }
{
    let greatest = greatest_of(rooms);
    if greatest < least {
        return None;
    }
    let middle = middle_of(rooms, greatest);
    let upper = uppers.get(middle).copied().unwrap_or(0);
    Some(Point {
        x: LEFT + (half + middle) as u64,
        y: u64::from(upper) + u64::from(greatest / 2),
    })
}

/// The room at each column: from the upper line before it to the lower line behind it.
fn rooms(alloc: Global, uppers: &[u16], lowers: &[u16]) -> Result<Vec<u16>, AllocError>
    ensures value { IfOk result (λ found. found.items ≡ rooms uppers.now lowers.now) }
    ensures few { IfOk result (λ found. length found.items ≤ length uppers.now) }
{
    uppers
        .iter()
        .zip(lowers.iter())
        .map(|(upper, lower)| lower.saturating_sub(*upper))
        .collect(alloc)
}

/// The greatest of some numbers.
fn greatest_of(numbers: &[u16]) -> u16
    ensures { result ≡ greatest_of numbers.now }
{
    numbers
        .iter()
        .fold(0, |greatest, number| greatest.max(*number))
}

/// The middle of the first run of a number.
fn middle_of(numbers: &[u16], number: u16) -> usize
    requires { length numbers.now ≤ 1000 }
    ensures value { result ≡ middle_of numbers.now number }
    ensures few { result ≤ 2000 }
{
    let first = first_of(numbers, number);
    let run = count_of(&numbers[first..], number);
    first + run.saturating_sub(1) / 2
}

/// The place of the first that is equal to a number, or 0.
fn first_of(numbers: &[u16], number: u16) -> usize
    ensures value { result ≡ first_of numbers.now number }
    ensures within { result ≤ length numbers.now }
{
    position_of(numbers, number).unwrap_or(0)
}

/// The place of the first that is equal to a number.
fn position_of(numbers: &[u16], number: u16) -> Option<usize>
    ensures value { result ≡ position (λ other. other == number) numbers.now }
    ensures within { IfSome result (λ place. place ≤ length numbers.now) }
{
    numbers.iter().position(|other| *other == number)
}

/// How many numbers from the front on are equal to this one.
fn count_of(numbers: &[u16], number: u16) -> usize
    ensures value { result ≡ count_of numbers.now number }
    ensures within { result ≤ length numbers.now }
{
    numbers.iter().take_while(|other| **other == number).count()
}
