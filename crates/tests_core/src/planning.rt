//! Words and plans under test.
use std::process::Abort;
use tests_support::chain_of;
use tox_compile::{Plan, compile};
use tox_words::Words;

/// A table of these words.
pub fn words_of(rt: &(impl Abort + AllocGlobal), words: &[u32]) -> Words {
    Words::from_list(rt.alloc(), words).expect(rt, "words")
}

/// A table of one word.
pub fn one_word(rt: &(impl Abort + AllocGlobal)) -> Words {
    words_of(rt, &[0])
}

/// The plan of these toxics.
pub fn plan_of(rt: &impl Abort, toxics: &str, words: &Words) -> Plan {
    let chain = chain_of(toxics).expect(rt, "short forms");
    compile(&chain, words)
}
