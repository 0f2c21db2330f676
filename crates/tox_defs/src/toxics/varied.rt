//! Numbers varied by a drawn word.
ghost use Rattle.std.specs.Prelude.{◌≡◌, ◌+◌, ◌-◌, ◌<◌, ◌≤◌, ◌^◌};
ghost use Rattle.tox_words.specs.Draw.{draws_of};
ghost use Rattle.tox_defs.specs.toxics.Varied.{varied};

use tox_words::Drawing;

/// A number varied, up or down and not below 0, by the word that a lane draws at this turn.
pub(crate) fn varied(
    drawing: &Drawing<'_>,
    lane: usize,
    turn: u64,
    middle: u32,
    variation: u32,
) -> u64
    requires { turn + 1 < 2 ^ 64 }
    ensures value { result ≡ varied middle variation (draws_of drawing.now lane (1 + turn)) }
    ensures least { middle - variation ≤ result }
    ensures most { result ≤ middle + variation }
{
    let middle = u64::from(middle);
    let variation = u64::from(variation);
    if variation == 0 {
        return middle;
    }
    let word = u64::from(drawing.draw(lane, 1 + turn));
    (middle + word % (2 * variation + 1)).saturating_sub(variation)
}
