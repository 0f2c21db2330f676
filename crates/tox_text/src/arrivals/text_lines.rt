//! The lines of a text, one after the other.
ghost use Rattle.std.specs.Prelude.{◌≡◌, ◌∷◌, ◌+◌, ◌≤◌, length, option_map};
ghost use Rattle.tox_text.specs.arrivals.ArrivalsText.{lines_of};
ghost use Rattle.tox_text.specs.arrivals.Lines.{lines_left, size_left};

use memchr::memchr;

/// The first line of a text without its line feed, and the text behind it. No text is behind the last line.
pub fn first_line(text: &[u8]) -> (&[u8], Option<&[u8]>)
    ensures lines { lines_of text.now
        ≡ result.0.now ∷ lines_left (option_map (λ rest. rest.now) result.1) }
    ensures shorter { length result.0.now + size_left (option_map (λ rest. rest.now) result.1)
        ≤ length text.now }
{
    match memchr(b'\n', text) {
        Some(place) => (&text[..place], Some(&text[place + 1..])),
        None => (text, None),
    }
}
