//! The link that a command line describes: its words and its toxics.
use crate::explaining::Explaining;
use crate::kept_input::KeptInput;
use std::alloc::Global;
use std::process::ExitCode;
use tox_arguments::LinkArguments;
use tox_defs::Chain;
use tox_explain::{Failure, Inputs};
use tox_proxy::read_chain;
use tox_words::{Words, WordsFault};

/// A link's table of words and its chain.
#[derive(Drop)]
pub struct LinkConfig {
    pub words: Words,
    pub chain: Chain,
}

/// Reads the words, then the toxics from the left.
pub fn read_link(alloc: Global, link: &LinkArguments<'_>) -> Result<LinkConfig, Failure<'static>> {
    let words = match words_of(alloc, link.words) {
        Ok(words) => words,
        Err(fault) => return Err(Failure::Words(fault)),
    };
    match read_chain(link.lanes, &link.toxics) {
        Ok(chain) => Ok(LinkConfig { words, chain }),
        Err(fault) => Err(Failure::Toxics(fault)),
    }
}

/// The status of a command that reads a link and perhaps arrivals.
pub fn link_status<'x, R: Eprint + AllocGlobal>(
    rt: &R,
    explaining: Explaining,
    link: &'x LinkArguments<'x>,
    input: &'x KeptInput,
    done: Result<(), Failure<'_>>,
) -> ExitCode {
    let Err(fault) = done else {
        return ExitCode::SUCCESS;
    };
    let inputs = Inputs {
        toxics: &link.toxics,
        words: link.words,
        lines: input.text(),
        ..Inputs::none()
    };
    explaining.fail(rt, &fault, &inputs)
}

/// The table of words that a text gives. Without one it is the one word 0.
fn words_of(alloc: Global, text: Option<&str>) -> Result<Words, WordsFault> {
    match text {
        Some(text) => Words::from_text(alloc, text),
        None => Words::from_list(alloc, &[0]),
    }
}
