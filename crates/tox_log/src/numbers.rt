//! Numbers of a log, and the parts of its lines.
ghost use Rattle.std.specs.Prelude.{◌≡◌, ◌++◌, ◌∷◌, MatchOption};
ghost use Rattle.tox_log.specs.Numbers.{Lacks, ReadsNumber};

use std::str;
use tox_time::{HORIZON, Micros, parse_decimal};

/// How many digits a number has at most.
const MAX_DIGITS: usize = 20;

/// The number that a text writes in decimal digits without leading zeros, where it is at most `greatest`.
pub(crate) fn number_of(text: &[u8], greatest: u64) -> Option<u64>
    ensures { ReadsNumber result greatest text.now }
{
    if text.len() > 1 && text[0] == b'0' {
        return None;
    }
    let Ok(text) = str::from_utf8(text) else {
        return None;
    };
    parse_decimal(text, MAX_DIGITS, greatest)
}

/// The instant that a text writes in decimal digits without leading zeros.
pub(crate) fn instant_of(text: &[u8]) -> Option<Micros>
    ensures { ReadsNumber result 1_000_000_000_000_000 text.now }
{
    let Some(micros) = number_of(text, HORIZON) else {
        return None;
    };
    Micros::new(micros)
}

/// The parts before and behind the first such byte.
pub(crate) fn cut_at(text: &[u8], separator: u8) -> Option<(&[u8], &[u8])>
    ensures cut { MatchOption result (Lacks separator text.now)
        (λ parts. Lacks separator parts.0.now
        × (text.now ≡ parts.0.now ++ separator ∷ parts.1.now)) }
{
    let place = text.iter().position(|byte| *byte == separator)?;
    Some((&text[..place], &text[place + 1..]))
}

/// The parts before and behind the last such byte.
pub(crate) fn cut_at_last(text: &[u8], separator: u8) -> Option<(&[u8], &[u8])>
    ensures cut { MatchOption result (Lacks separator text.now)
        (λ parts. Lacks separator parts.1.now
        × (text.now ≡ parts.0.now ++ separator ∷ parts.1.now)) }
{
    let place = text.iter().rposition(|byte| *byte == separator)?;
    Some((&text[..place], &text[place + 1..]))
}
