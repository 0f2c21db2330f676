//! The words that lanes draw first.
ghost use Rattle.std.specs.Prelude.{◌≡◌, ◌≤◌, take};
ghost use Rattle.tox_words.specs.Seeded.{seeded_words};
ghost use Rattle.tox_words.specs.Table.{IsWordTable};

use crate::lanes::MAX_LANES;
use crate::seed::generator_of;
use rand_pcg::rand_core::utils::NextWord;
use std::marker::Model;
use tox_time::Stream;

/// The first words of a connection's stream: one for each lane that there may be. It takes no memory.
#[derive(Debug, Drop)]
pub struct FirstWords {
    words: [u32; MAX_LANES],
}

impl Model for FirstWords {
    ghost use Rattle.std.specs.Prelude.{List, ℕ};
    ghost use Rattle.tox_words.specs.Table.{IsWordTable};

    ghost Value = { List ℕ };

    ghost view = { λ w. w.words };

    ghost invariant = { λ w. IsWordTable w.words };
}

impl FirstWords {
    /// The first 32 words of [`Words::from_seed`](crate::Words::from_seed).
    pub fn from_seed(seed: u64, conn: u64, stream: Stream) -> FirstWords
        requires first { 1 ≤ conn }
        requires last { conn ≤ 1_000_000 }
        ensures { result ≡ take 32 (seeded_words seed conn stream) }
    {
        let mut generator = generator_of(seed, conn, stream);
        let mut words = [0; MAX_LANES];
        for lane in 0..MAX_LANES {
            words[lane] = generator.next_word();
        }
        FirstWords { words }
    }

    /// The words in order.
    pub(crate) fn as_slice(&self) -> &[u32]
        ensures value { result.now ≡ self.now }
        ensures table { IsWordTable self.now }
    {
        &self.words
    }
}
