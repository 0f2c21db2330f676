//! Word tables, and the words that lanes draw from them.
ghost use Rattle.std.specs.Prelude.{◌≡◌, ◌≢◌, ◌<◌, ◌≤◌, ◌+◌, ◌*◌, ◌%◌, IfOk, IfErr, IsOk, IsOkUnless, length};
ghost use Rattle.tox_words.specs.Draw.{draw, draw_in};
ghost use Rattle.tox_words.specs.Seeded.{seeded_words};
ghost use Rattle.tox_words.specs.Table.{IsWordTable, table_of};
ghost use Rattle.tox_words.specs.WordsText.{table_of_text};
ghost use Rattle.tox_words.specs.declared.words.TheConstants.{MAX_CONNECTIONS};
ghost use Rattle.tox_words.specs.declared.fault.WordsFault.TheVariants.{OutOfMemory};

use crate::drawing::Drawing;
use crate::fault::WordsFault;
use crate::lanes::Lanes;
use crate::seed::seeded_words;
use crate::text::{bad_place, count_parts, words_of};
use std::alloc::Global;
use std::marker::Model;
use tox_time::Stream;

/// The most words of a table.
pub const MAX_WORDS: usize = 4096;

/// The most connections of a proxy, which number from 1.
pub const MAX_CONNECTIONS: u64 = 1_000_000;

/// A table of 1 to [`MAX_WORDS`] words of 32 bits.
#[derive(Debug, Drop)]
pub struct Words {
    words: Vec<u32>,
}

impl Model for Words {
    ghost use Rattle.std.specs.Prelude.{List, ℕ};
    ghost use Rattle.tox_words.specs.Table.{IsWordTable};

    ghost Value = { List ℕ };

    ghost view = { λ w. w.words.items };

    ghost invariant = { λ w. IsWordTable w.words.items };
}

impl Words {
    /// The table of these words.
    ///
    /// Fails in this order: [`WordsFault::NoWords`], [`WordsFault::TooMany`], and then
    /// [`WordsFault::OutOfMemory`].
    pub fn from_list(alloc: Global, words: &[u32]) -> Result<Words, WordsFault>
        ensures ok { IfOk result (λ table. table_of words.now ≡ Ok table) }
        ensures fault { IfErr result (λ e. e ≢ OutOfMemory → table_of words.now ≡ Err e) }
        ensures memory_last { result ≡ Err OutOfMemory → IsOk (table_of words.now) }
    {
        if words.is_empty() {
            return Err(WordsFault::NoWords);
        }
        if words.len() > MAX_WORDS {
            return Err(WordsFault::TooMany);
        }
        let words = words.to_vec(alloc).map_err(|_| WordsFault::OutOfMemory)?;
        Ok(Words { words })
    }

    /// The table that a text writes: numbers separated by commas, each 1 to 10 decimal digits of
    /// value at most [`u32::MAX`].
    ///
    /// Fails in this order: [`WordsFault::NoWords`] for the empty text, [`WordsFault::BadWord`]
    /// with the place, from 0, of the first part that is no such number,
    /// [`WordsFault::TooMany`], and then [`WordsFault::OutOfMemory`].
    pub fn from_text(alloc: Global, text: &str) -> Result<Words, WordsFault>
        ensures ok { IfOk result (λ table. table_of_text text.now ≡ Ok table) }
        ensures fault { IfErr result (λ e. e ≢ OutOfMemory → table_of_text text.now ≡ Err e) }
        ensures memory_last { result ≡ Err OutOfMemory → IsOk (table_of_text text.now) }
    {
        if text.is_empty() {
            return Err(WordsFault::NoWords);
        }
        if let Some(place) = bad_place(text) {
            return Err(WordsFault::BadWord(place));
        }
        let count = count_parts(text);
        if count > MAX_WORDS {
            return Err(WordsFault::TooMany);
        }
        let words = words_of(alloc, text, count).map_err(|_| WordsFault::OutOfMemory)?;
        Ok(Words { words })
    }

    /// The table of a connection's stream: the first 1024 outputs of PCG32 from this seed, on the
    /// sequence `2 * conn`, or the one after it downstream. Connections number from 1 to [`MAX_CONNECTIONS`].
    ///
    /// Fails only out of memory.
    pub fn from_seed(
        alloc: Global,
        seed: u64,
        conn: u64,
        stream: Stream,
    ) -> Result<Words, WordsFault>
        requires first { 1 ≤ conn }
        requires last { conn ≤ 1_000_000 }
        ensures ok { IfOk result (λ table. table ≡ seeded_words seed conn stream) }
        ensures err { IsOkUnless result OutOfMemory }
        ensures numbers { MAX_CONNECTIONS ≡ 1_000_000 }
    {
        let words = seeded_words(alloc, seed, conn, stream).map_err(|_| WordsFault::OutOfMemory)?;
        Ok(Words { words })
    }

    /// How many words the table has, 1 to [`MAX_WORDS`].
    pub fn len(&self) -> usize
        ensures value { result ≡ length self.now }
        ensures table { IsWordTable self.now }
    {
        self.words.len()
    }

    /// The words in order.
    pub(crate) fn as_slice(&self) -> &[u32]
        ensures value { result.now ≡ self.now }
        ensures table { IsWordTable self.now }
    {
        &self.words
    }

    /// The words in order, as a vector.
    pub(crate) fn into_vec(self) -> Vec<u32>
        ensures value { result.items ≡ self }
        ensures table { IsWordTable self }
    {
        self.words
    }

    /// The `j`-th word of a lane of 16, both from 0.
    pub fn draw(&self, lane: usize, j: u64) -> u32
        ensures { result ≡ draw self.now lane j }
    {
        self.draw_in(Lanes::Sixteen, lane, j)
    }

    /// The `j`-th word of a lane, both from 0. The lanes take turns at the table, round and round. Total: any lane,
    /// any turn.
    pub fn draw_in(&self, lanes: Lanes, lane: usize, j: u64) -> u32
        ensures { result ≡ draw_in lanes self.now lane j }
    {
        Drawing::new(lanes, self).draw(lane, j)
    }
}
