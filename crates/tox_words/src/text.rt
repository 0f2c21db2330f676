//! Words written as a text: decimal numbers, separated by commas.
ghost use Rattle.std.specs.Prelude.{◌≡◌, IfOk, length};
ghost use Rattle.tox_words.specs.WordsText.{bad_place, parts_of, word_of, words_of};

use std::alloc::{AllocError, Global};
use tox_time::parse_decimal;

/// How many digits a word may have.
const MAX_DIGITS: usize = 10;

/// The place, from 0, of the first part that is no word.
pub(crate) fn bad_place(text: &str) -> Option<usize>
    ensures { result ≡ bad_place (parts_of text.now) }
{
    text.split(',').position(|part| word_of(part).is_none())
}

/// How many parts a text has.
pub(crate) fn count_parts(text: &str) -> usize
    ensures { result ≡ length (parts_of text.now) }
{
    text.split(',').count()
}

/// The words of a text, in one allocation that has room for `count` of them.
pub(crate) fn words_of(alloc: Global, text: &str, count: usize) -> Result<Vec<u32>, AllocError>
    ensures { IfOk result (λ words. words.items ≡ words_of (parts_of text.now)) }
{
    let mut words = Vec::with_capacity(alloc, count)?;
    words.extend(text.split(',').filter_map(word_of))?;
    Ok(words)
}

fn word_of(part: &str) -> Option<u32>
    ensures { result ≡ word_of part.now }
{
    let word = parse_decimal(part, MAX_DIGITS, u64::from(u32::MAX))?;
    u32::try_from(word).ok()
}
