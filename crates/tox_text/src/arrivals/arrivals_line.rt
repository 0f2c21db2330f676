//! One line of the arrivals text, in its parts.
ghost use Rattle.std.specs.Prelude.{◌≡◌, ◌==◌, ◌<◌, length, option_map, position, IfSome};
ghost use Rattle.tox_text.specs.arrivals.Line.{cut_at, digit_count, instant_of, line_of, line_seen, line_parts, parts_seen};

use tox_time::Micros;

/// How many digits an instant may have.
const MAX_DIGITS: usize = 16;

/// What happened at an instant.
#[derive(Clone, Copy, Debug)]
pub struct Line<'a> {
    pub instant: Micros,
    pub event: Event<'a>,
}

#[derive(Clone, Copy, Debug)]
pub enum Event<'a> {
    /// The bytes that these hexadecimal digits write arrived. Whether they are digits, in pairs, is not known yet.
    Data(&'a [u8]),
    /// The source ended.
    Eof,
}

/// The parts of a line, or None if it isn't a line of the arrivals text whatever the digits are.
pub fn line_of<'a>(text: &'a [u8]) -> Option<Line<'a>>
    ensures parts { option_map parts_seen result ≡ line_parts text.now }
    ensures says { line_seen result ≡ line_of text.now }
    ensures shorter { IfSome result (λ line. digit_count line.event < length text.now) }
{
    let (time, event) = cut_at(text, b' ')?;
    let instant = instant_of(time)?;
    if event == b"eof".as_slice() {
        return Some(Line {
            instant,
            event: Event::Eof,
        });
    }
    let digits = event.strip_prefix(b"data ")?;
    Some(Line {
        instant,
        event: Event::Data(digits),
    })
}

/// The parts before and behind the first such byte.
fn cut_at(text: &[u8], separator: u8) -> Option<(&[u8], &[u8])>
    ensures cut { option_map
        (λ parts. (parts.0.now, parts.1.now)) result ≡ cut_at separator text.now }
    ensures shorter { IfSome result (λ parts. length parts.1.now < length text.now) }
{
    let Some(place) = place_of(text, separator) else {
        return None;
    };
    Some((&text[..place], &text[place + 1..]))
}

fn place_of(text: &[u8], separator: u8) -> Option<usize>
    ensures { result ≡ position (λ byte. byte == separator) text.now }
{
    text.iter().position(|byte| *byte == separator)
}

/// The instant that a text writes as an arrivals text does: 1 to 16 decimal digits, of value at most 10^15. The value of so few digits
/// fits 64 bits.
pub fn instant_of(text: &[u8]) -> Option<Micros>
    ensures { result ≡ instant_of text.now }
{
    if text.is_empty() || text.len() > MAX_DIGITS {
        return None;
    }
    let mut micros = 0;
    for digit in text {
        if !digit.is_ascii_digit() {
            return None;
        }
        micros = 10 * micros + u64::from(digit - b'0');
    }
    Micros::new(micros)
}
