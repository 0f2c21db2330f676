//! The whole lines of a text.
ghost use Rattle.std.specs.Prelude.{◌≡◌, ◌==◌, ◌≤◌, count_by, length};
ghost use Rattle.tox_log.specs.files.WholeLines.{IsLinesWithin};

use memchr::{memchr_iter, memrchr};

/// How many bytes of a text are its first whole lines that have room.
pub(crate) fn lines_within(text: &[u8], room: u64) -> usize
    ensures { IsLinesWithin room text.now result }
{
    let end = (text.len() as u64).min(room) as usize;
    match memrchr(b'\n', &text[..end]) {
        Some(place) => place + 1,
        None => 0,
    }
}

/// How many lines end in a text.
pub(crate) fn count_lines(text: &[u8]) -> usize
    ensures { result ≡ count_by (λ byte. byte == 10) text.now }
{
    memchr_iter(b'\n', text).count()
}
