//! Worked word tables and draws.
use crate::comparing::{assert_equal, assert_equal_at};
use std::process::Abort;
use tox_time::Stream;
use tox_words::{Drawing, Lanes, MAX_WORDS, Words, WordsFault};

/// Lists of so many words, and why they are refused, if they are.
const LISTS: &[(usize, Option<WordsFault>)] = &[
    (0, Some(WordsFault::NoWords)),
    (MAX_WORDS, None),
    (MAX_WORDS + 1, Some(WordsFault::TooMany)),
];

#[test]
fn lists_have_bounds(rt: HostRuntime) {
    let words = [7; MAX_WORDS + 1];
    for (count, fault) in LISTS {
        let list = words.get(..*count).expect(&rt, "so many words");
        let answer = Words::from_list(rt.alloc(), list);
        assert_equal_at(&rt, &answer.err(), fault, count);
    }
}

/// Texts, each of them repeated so often, and why they are refused, if they are.
const TEXTS: &[(&str, usize, Option<WordsFault>)] = &[
    ("", 1, Some(WordsFault::NoWords)),
    ("1,x", 1, Some(WordsFault::BadWord(1))),
    ("4294967295", 1, None),
    ("4294967296", 1, Some(WordsFault::BadWord(0))),
    ("00000000001", 1, Some(WordsFault::BadWord(0))),
    ("0,0", MAX_WORDS, Some(WordsFault::TooMany)),
    ("0,", MAX_WORDS, Some(WordsFault::BadWord(MAX_WORDS))),
];

#[test]
fn texts_are_read(rt: HostRuntime) {
    for (text, times, fault) in TEXTS {
        let whole = text.repeat(rt.alloc(), *times).expect(&rt, "memory");
        let answer = Words::from_text(rt.alloc(), &whole);
        assert_equal_at(&rt, &answer.err(), fault, text);
    }
}

/// Compares words of these lanes and numbers.
fn compare(rt: &impl Abort, words: &Words, draws: &[(usize, u64, u32)]) {
    for (lane, j, word) in draws {
        assert_equal_at(rt, &words.draw(*lane, *j), word, &(*lane, *j));
    }
}

/// The first words of PCG32 from the state 42 on the sequence 54, as its author gives them: word 0 of each lane.
const PUBLISHED: &[(usize, u64, u32)] = &[
    (0, 0, 0xa15c02b7),
    (1, 0, 0x7b47f409),
    (2, 0, 0xba1d3330),
    (3, 0, 0x83d2f293),
    (4, 0, 0xbfa4784b),
    (5, 0, 0xcbed606e),
];

#[test]
fn seeds_begin_as_published(rt: HostRuntime) {
    let words = Words::from_seed(rt.alloc(), 42, 27, Stream::Upstream).expect(&rt, "memory");
    compare(&rt, &words, PUBLISHED);
    assert_equal(&rt, &words.len(), &1024);
}

/// Words of the table 10, 20, 30.
const TURNS: &[(usize, u64, u32)] = &[
    (0, 0, 10),
    (1, 0, 20),
    (0, 1, 20),
    (2, 1, 10),
    (usize::MAX, u64::MAX, 10),
];

#[test]
fn lanes_take_turns(rt: HostRuntime) {
    let words = Words::from_text(rt.alloc(), "10,20,30").expect(&rt, "words");
    compare(&rt, &words, TURNS);
    assert_equal(&rt, &words.draw_in(Lanes::ThirtyTwo, 0, 1), &30);
    assert_equal(&rt, &Drawing::new(Lanes::ThirtyTwo, &words).draw(1, 1), &10);
}
