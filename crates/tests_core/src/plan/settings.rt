//! What a case takes place in: a link's words, its toxics and what arrives.
use std::process::Abort;
use tests_support::{arrivals_of, chain_of};
use tox_defs::Chain;
use tox_plan::deliver;
use tox_time::{Arrivals, Outcome};
use tox_words::Words;

/// A link's words, its toxics and what arrives.
#[derive(Drop)]
pub struct Setting {
    pub words: Words,
    pub chain: Chain,
    pub arrivals: Arrivals,
}

impl Setting {
    /// The setting of these texts.
    pub fn read(
        rt: &(impl Abort + AllocGlobal),
        words: &str,
        toxics: &str,
        arrived: &str,
    ) -> Setting {
        Setting {
            words: Words::from_text(rt.alloc(), words).expect(rt, "words"),
            chain: chain_of(toxics).expect(rt, "short forms"),
            arrivals: arrivals_of(rt.alloc(), arrived).expect(rt, "arrivals"),
        }
    }

    /// What the compiled plan delivers.
    pub fn delivered(&self, rt: &(impl Abort + AllocGlobal)) -> Outcome {
        deliver(rt.alloc(), &self.chain, &self.words, &self.arrivals).expect(rt, "memory")
    }
}
