//! Words made from a seed.
ghost use Rattle.std.specs.Prelude.{◌≡◌, ◌≤◌, IfOk};
ghost use Rattle.tox_words.specs.Seeded.{number_of, seeded_words, started_at};

use rand_pcg::Lcg64Xsh32;
use rand_pcg::rand_core::utils::NextWord;
use std::alloc::{AllocError, Global};
use tox_time::Stream;

/// How many words are made from a seed.
const SEEDED_WORDS: usize = 1024;

/// The words of a connection's stream.
pub(crate) fn seeded_words(
    alloc: Global,
    seed: u64,
    conn: u64,
    stream: Stream,
) -> Result<Vec<u32>, AllocError>
    requires { conn ≤ 1_000_000 }
    ensures { IfOk result (λ words. words.items ≡ seeded_words seed conn stream) }
{
    let mut generator = generator_of(seed, conn, stream);
    let mut words = Vec::with_capacity(alloc, SEEDED_WORDS)?;
    for _ in 0..SEEDED_WORDS {
        words.push(generator.next_word())?;
    }
    Ok(words)
}

/// What gives the words of a connection's stream, one after the other.
pub(crate) fn generator_of(seed: u64, conn: u64, stream: Stream) -> Lcg64Xsh32
    requires { conn ≤ 1_000_000 }
    ensures { result ≡ started_at seed conn stream }
{
    Lcg64Xsh32::new(seed, 2 * conn + number_of(stream))
}

fn number_of(stream: Stream) -> u64
    ensures { result ≡ number_of stream }
{
    match stream {
        Stream::Upstream => 0,
        Stream::Downstream => 1,
    }
}
