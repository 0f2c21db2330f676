//! A table of words with the lanes that share it.
ghost use Rattle.std.specs.Prelude.{◌≡◌, ◌<◌, ◌≤◌, ◌+◌, ◌*◌, ◌%◌};
ghost use Rattle.tox_words.specs.Draw.{draws_of, lane_count};
ghost use Rattle.tox_words.specs.Table.{IsWordTable, max_words};

use crate::first_words::FirstWords;
use crate::lanes::{Lanes, MAX_LANES};
use crate::word_table::WordTable;
use crate::words::Words;
use std::marker::Model;

/// What the lanes of a link draw from its table.
#[derive(Debug, Drop)]
pub struct Drawing<'w> {
    lanes: Lanes,
    words: WordTable<'w>,
}

impl<'w> Model for Drawing<'w> {
    ghost use Rattle.tox_words.specs.Draw.{DrawingView};

    ghost Value = { DrawingView };

    ghost use Rattle.tox_words.specs.Table.{IsWordTable};
    ghost use Rattle.tox_words.specs.WordTable.{words_in};

    ghost view = { λ d. record { lanes = d.lanes; words = words_in d.words } };

    ghost invariant = { λ d. IsWordTable (words_in d.words) };
}

impl<'w> Drawing<'w> {
    /// A table that so many lanes share.
    pub fn new(lanes: Lanes, words: &'w Words) -> Drawing<'w>
        ensures { result ≡ record { lanes = lanes; words = words.now } }
    {
        Drawing::lent(lanes, words.as_slice())
    }

    /// The first words, one for each lane. At turn 0 it draws what the whole table does.
    pub fn first(lanes: Lanes, first: &'w FirstWords) -> Drawing<'w>
        ensures { result ≡ record { lanes = lanes; words = first.now } }
    {
        Drawing::lent(lanes, first.as_slice())
    }

    fn lent(lanes: Lanes, words: &'w [u32]) -> Drawing<'w>
        requires { IsWordTable words.now }
        ensures { result ≡ record { lanes = lanes; words = words.now } }
    {
        Drawing {
            lanes,
            words: WordTable::Lent(words),
        }
    }

    /// A table that so many lanes share, which keeps its words.
    pub fn owning(lanes: Lanes, words: Words) -> Drawing<'w>
        ensures { result ≡ record { lanes = lanes; words = words } }
    {
        let words = WordTable::Owned(words.into_vec());
        Drawing { lanes, words }
    }

    /// The `j`-th word of a lane, both from 0. Total: any lane, any turn.
    pub fn draw(&self, lane: usize, j: u64) -> u32
        ensures { result ≡ draws_of self.now lane j }
    {
        let words = self.words.as_slice();
        words[place_of(self.lanes, lane, j, words.len())]
    }
}

/// The index of the `j`-th word of a lane in a table of `len` words. The common case costs one division, of 32 bits.
fn place_of(lanes: Lanes, lane: usize, j: u64, len: usize) -> usize
    requires some { 0 < len }
    requires most { len ≤ max_words }
    ensures { result ≡ (lane + lane_count lanes * j) % len }
{
    let count = lanes.count();
    if lane < MAX_LANES && j < (u32::MAX / MAX_LANES as u32) as u64 {
        return ((lane as u32 + count as u32 * j as u32) % len as u32) as usize;
    }
    let turn = (j % len as u64) as usize;
    (lane % len + count * turn) % len
}
