//! Chains as a command line gives them: one short form for each toxic.
ghost use Rattle.std.specs.Prelude.{◌≡◌, ◌+◌, IfOk, IfErr, OnOk, map};
ghost use Rattle.tox_runs.specs.files.Toxics.{chain_of, with_short};

use thiserror::Error;
use tox_defs::{Chain, Lanes, ShortFault, read_short};

/// Why short forms make no chain. Each names its short form by its number from 1.
#[derive(Clone, Copy, Debug, PartialEq, Eq, Error)]
pub enum ToxicsFault {
    /// This one is no short form of a toxic.
    #[error("{0} {1}")]
    Short(ShortFault, usize),
    /// This one finds the chain full.
    #[error("S9 TooManyToxics {0}")]
    TooMany(usize),
}

/// The chain of so many lanes with the toxics that short forms name, in order; or the first fault, from the left.
pub fn read_chain(lanes: Lanes, texts: &[&str]) -> Result<Chain, ToxicsFault>
    ensures ok { IfOk result
        (λ chain. chain_of lanes (map (λ text. text.now) texts.now) ≡ Ok chain) }
    ensures fault { IfErr result (λ e. chain_of lanes (map (λ text. text.now) texts.now) ≡ Err e) }
{
    let mut chain = Chain::with_lanes(lanes);
    let mut number = 0;
    for text in texts {
        number += 1;
        add_short(&mut chain, text, number)?;
    }
    Ok(chain)
}

/// Adds the toxic of a short form.
fn add_short(chain: &mut Chain, text: &str, number: usize) -> Result<(), ToxicsFault>
    ensures ok { OnOk result (with_short number chain.old text.now ≡ Ok chain.new) }
    ensures fault { IfErr result (λ e. with_short number chain.old text.now ≡ Err e) }
{
    let (toxic, toxicity) = read_short(text).map_err(|fault| ToxicsFault::Short(fault, number))?;
    chain
        .push(toxic, toxicity)
        .map_err(|_| ToxicsFault::TooMany(number))
}
