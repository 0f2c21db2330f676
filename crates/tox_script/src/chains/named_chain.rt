//! A chain with the names of its toxics.
ghost use Rattle.std.specs.Prelude.{◌≡◌, false, length, map, string_bytes, OnOk, OnErr};
ghost use Rattle.tox_defs.specs.chain.Chain.{IsEntry, is_full};
ghost use Rattle.tox_script.specs.fields.Fields.{is_among};

use std::alloc::{AllocError, Global};
use std::marker::Model;
use tox_defs::{Chain, Entry, Lanes};

/// The toxics of one stream of a rule in the file's order, each with its name.
#[derive(Drop)]
pub struct NamedChain {
    chain: Chain,
    names: Vec<String>,
}

impl Model for NamedChain {
    ghost use Rattle.tox_script.specs.chains.NamedChain.{NamedToxics};

    ghost Value = { NamedToxics };

    ghost use Rattle.tox_script.specs.chains.NamedChainInside.{named_toxics, IsMatched};

    ghost view = { named_toxics };

    ghost invariant = { IsMatched };
}

impl NamedChain {
    ghost use Rattle.tox_script.specs.chains.NamedChain.{nothing, with_toxic};

    /// No toxic, on so many lanes.
    pub(crate) fn new(alloc: Global, lanes: Lanes) -> NamedChain
        ensures { result ≡ nothing lanes }
    {
        NamedChain {
            chain: Chain::with_lanes(lanes),
            names: Vec::new(alloc),
        }
    }

    pub fn chain(&self) -> &Chain
        ensures { result.now ≡ self.now.chain }
    {
        &self.chain
    }

    /// The toxics' names, in the chain's order.
    pub fn names(&self) -> &[String]
        ensures value { map string_bytes result.now ≡ self.now.names }
        ensures one_each { length result.now ≡ length self.now.chain.entries }
    {
        &self.names
    }

    /// Whether a toxic has this name.
    pub(crate) fn has_name(&self, name: &str) -> bool
        ensures { result ≡ is_among self.now.names name.now }
    {
        self.names.iter().any(|other| other.as_str() == name)
    }

    pub(crate) fn is_full(&self) -> bool
        ensures { result ≡ is_full self.now.chain }
    {
        self.chain.is_full()
    }

    /// Adds a toxic behind the others. A refusal leaves them unchanged.
    pub(crate) fn push(&mut self, entry: Entry, name: String) -> Result<(), AllocError>
        requires fits { IsEntry entry }
        requires room { is_full self.old.chain ≡ false }
        ensures ok { OnOk result (self.new ≡ with_toxic entry (string_bytes name) self.old) }
        ensures err { OnErr result (self.new ≡ self.old) }
    {
        self.names.push(name)?;
        self.chain.push(entry.toxic, entry.toxicity).unwrap();
        Ok(())
    }
}
