//! The stages of a chain.
ghost use Rattle.std.specs.Prelude.{◌≡◌, IfOk, map};
ghost use Rattle.tox_defs.specs.chain.Chain.{IsChain};
ghost use Rattle.tox_defs.specs.Flow.{applied, chain_drawing};
ghost use Rattle.tox_network.specs.NetworkView.{placed_stage};

use std::alloc::{AllocError, Global};
use tox_defs::{Chain, Stage};
use tox_words::Words;

/// A stage for each toxic that a link with these words meets, in order, each before its first item.
pub(crate) fn first_stages<'w>(
    alloc: Global,
    chain: &Chain,
    words: &'w Words,
) -> Result<Vec<Stage<'w>>, AllocError>
    ensures stages { IfOk result (λ stages. stages.items
        ≡ map (placed_stage (chain_drawing chain.now words.now)) (applied chain.now words.now)) }
    ensures chain { IsChain chain.now }
{
    let lanes = chain.lanes();
    let applied = chain.applied(words);
    let mut stages = Vec::with_capacity(alloc, applied.len())?;
    for placed in applied.iter() {
        stages.push(Stage::new(placed.toxic, lanes, placed.place, words))?;
    }
    Ok(stages)
}
