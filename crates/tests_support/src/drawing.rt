//! Numbers and words drawn at random.
ghost use Rattle.std.specs.Prelude.{◌<◌};

use rand_pcg::Lcg64Xsh32;
use rand_pcg::rand_core::utils::NextWord;
use std::alloc::Global;
use tox_words::{Words, WordsFault};

/// A number below the bound.
pub fn below(generator: &mut Lcg64Xsh32, bound: u32) -> u32
    requires { 0 < bound }
    ensures { result < bound }
{
    generator.next_word() % bound
}

/// One to six words.
pub fn drawn_words(alloc: Global, generator: &mut Lcg64Xsh32) -> Result<Words, WordsFault> {
    let mut words = [0; 6];
    for word in words.iter_mut() {
        *word = generator.next_word();
    }
    let count = 1 + below(generator, 6) as usize;
    Words::from_list(alloc, &words[..count])
}
