//! The pairs of a short form: `key=value`, separated by commas.
ghost use Rattle.std.specs.Prelude.{◌≡◌, option_map, count_by};
ghost use Rattle.std.specs.List.{after_first, before_first, find, list_all};
ghost use Rattle.tox_defs.specs.short.Pairs.{has_double_key, has_key, is_equals, is_pair, is_word, is_word_byte, key_of, pair_number, pairs_of, value_at, value_of};
ghost use Rattle.tox_defs.specs.short.Short.{is_known};

use crate::toxic::Toxic;
use tox_time::parse_decimal;

/// The most digits of a value.
pub const MAX_VALUE_DIGITS: usize = 18;

/// Whether a text is one or more of `a` to `z` and `_`.
pub(super) fn is_word(text: &str) -> bool
    ensures { result ≡ is_word text.now }
{
    !text.is_empty() && are_word_bytes(text)
}

fn are_word_bytes(text: &str) -> bool
    ensures { result ≡ list_all is_word_byte text.now }
{
    text.bytes()
        .all(|byte| byte == b'_' || byte.is_ascii_lowercase())
}

/// Whether each text between the commas is a pair.
pub(super) fn are_pairs(pairs: &str) -> bool
    ensures { result ≡ list_all is_pair (pairs_of pairs.now) }
{
    pairs.split(',').all(is_pair)
}

fn is_pair(pair: &str) -> bool
    ensures { result ≡ is_pair pair.now }
{
    is_word(key_of(pair)) && value_of(pair).is_some()
}

fn key_of(pair: &str) -> &str
    ensures { result.now ≡ key_of pair.now }
{
    cut(pair).0
}

fn value_of(pair: &str) -> Option<u64>
    ensures { result ≡ value_of pair.now }
{
    pair_number(cut(pair).1)
}

/// The text before the first `=` and behind it.
fn cut(pair: &str) -> (&str, &str)
    ensures before { result.0.now ≡ before_first is_equals pair.now }
    ensures behind { result.1.now ≡ after_first is_equals pair.now }
{
    pair.split_once('=').unwrap_or((pair, ""))
}

fn pair_number(text: &str) -> Option<u64>
    ensures { result ≡ pair_number text.now }
{
    parse_decimal(text, MAX_VALUE_DIGITS, u64::MAX)
}

/// Whether a key is given twice or more.
pub(super) fn has_double_key(pairs: &str) -> bool
    ensures { result ≡ has_double_key (pairs_of pairs.now) }
{
    pairs
        .split(',')
        .any(|pair| count_key(pairs, key_of(pair)) > 1)
}

fn count_key(pairs: &str, key: &str) -> usize
    ensures { result ≡ count_by (has_key key.now) (pairs_of pairs.now) }
{
    pairs.split(',').filter(|pair| key_of(pair) == key).count()
}

/// Whether each key is an attribute of the toxic, or `toxicity`.
pub(super) fn are_known(toxic: &Toxic, pairs: &str) -> bool
    ensures { result ≡ list_all (λ pair. is_known toxic.now (key_of pair)) (pairs_of pairs.now) }
{
    pairs.split(',').all(|pair| is_known(toxic, key_of(pair)))
}

fn is_known(toxic: &Toxic, key: &str) -> bool
    ensures { result ≡ is_known toxic.now key.now }
{
    key == "toxicity" || toxic.has_attribute(key)
}

/// The value of a key.
pub(super) fn value_at(pairs: &str, key: &str) -> Option<u64>
    ensures { result ≡ value_at key.now (pairs_of pairs.now) }
{
    match pair_at(pairs, key) {
        Some(pair) => value_of(pair),
        None => None,
    }
}

fn pair_at<'a>(pairs: &'a str, key: &str) -> Option<&'a str>
    ensures { option_map (λ pair. pair.now) result ≡ find (has_key key.now) (pairs_of pairs.now) }
{
    pairs.split(',').find(|pair| key_of(pair) == key)
}
