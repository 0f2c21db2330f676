//! Texts: how long they are, and decimal numbers in them.
ghost use Rattle.std.specs.Prelude.{◌≡◌};
ghost use Rattle.std.specs.Char.{is_ascii_digit};
ghost use Rattle.std.specs.List.{list_all};
ghost use Rattle.tox_time.specs.Text.{decimal_value, is_sized};

/// The most bytes of a proxy's name, and of an address.
pub const MAX_TEXT_LEN: usize = 255;

/// Whether a text has 1 to `most` bytes.
pub fn is_sized(text: &str, most: usize) -> bool
    ensures { result ≡ is_sized most text.now }
{
    !text.is_empty() && text.len() <= most
}

/// The number that a text of 1 to `digits` decimal digits writes, where it is at most `greatest`.
pub fn parse_decimal(text: &str, digits: usize, greatest: u64) -> Option<u64>
    ensures { result ≡ decimal_value digits greatest text.now }
{
    // `parse` would accept a leading plus.
    if text.len() > digits || !are_digits(text) {
        return None;
    }
    let Ok(number) = text.parse::<u64>() else {
        return None;
    };
    if number <= greatest {
        Some(number)
    } else {
        None
    }
}

fn are_digits(text: &str) -> bool
    ensures { result ≡ list_all is_ascii_digit text.now }
{
    text.bytes().all(|byte| byte.is_ascii_digit())
}
