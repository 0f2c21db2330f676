//! The chains of a rule, one for each stream.
ghost use Rattle.std.specs.Prelude.{◌≡◌, false, string_bytes, OnOk, IfErr, Ok, Err};
ghost use Rattle.tox_defs.specs.chain.Chain.{IsEntry, is_full};
ghost use Rattle.tox_script.specs.chains.Chains.{has_name, no_chains, on, pushed, put_toxic};
ghost use Rattle.tox_script.specs.ScriptFaults.{IsScriptFault};
ghost use Rattle.tox_script.specs.Views.{toxic_view};

pub(crate) mod named_chain;
pub(crate) mod named_toxic;
pub(crate) mod rule_toxics;

use crate::chains::named_chain::NamedChain;
use crate::chains::named_toxic::NamedToxic;
use crate::fault::{Location, ScriptFault};
use std::alloc::{AllocError, Global};
use tox_defs::{Entry, Lanes};
use tox_time::Stream;

/// The toxics of a rule by their streams.
#[derive(Drop)]
pub struct Chains {
    upstream: NamedChain,
    downstream: NamedChain,
}

impl Chains {
    /// No toxic, on so many lanes.
    pub(crate) fn new(alloc: Global, lanes: Lanes) -> Chains
        ensures { result ≡ no_chains lanes }
    {
        Chains {
            upstream: NamedChain::new(alloc, lanes),
            downstream: NamedChain::new(alloc, lanes),
        }
    }

    /// The toxics of a stream.
    pub fn on(&self, stream: Stream) -> &NamedChain
        ensures { result.now ≡ on stream self.now }
    {
        match stream {
            Stream::Upstream => &self.upstream,
            Stream::Downstream => &self.downstream,
        }
    }

    /// Adds the toxic at a location behind the others of its stream.
    pub(crate) fn put(
        &mut self,
        alloc: Global,
        toxic: &NamedToxic<'_>,
        at: Location,
    ) -> Result<(), ScriptFault>
        requires { IsEntry toxic.now.entry }
        ensures ok { OnOk result (put_toxic at (toxic_view toxic.now) self.old ≡ Ok self.new) }
        ensures err { IfErr result (IsScriptFault (put_toxic at (toxic_view toxic.now) self.old)) }
    {
        let name = toxic.name(alloc)?;
        if self.has_name(&name) {
            return Err(ScriptFault::DoubleName(at));
        }
        if self.on(toxic.stream).is_full() {
            return Err(ScriptFault::TooManyToxics(at));
        }
        self.push(toxic.stream, toxic.entry, name)?;
        Ok(())
    }

    /// Whether a toxic of either stream has this name.
    fn has_name(&self, name: &str) -> bool
        ensures { result ≡ has_name name.now self.now }
    {
        self.upstream.has_name(name) || self.downstream.has_name(name)
    }

    /// Adds a toxic behind the others of a stream that has room.
    fn push(&mut self, stream: Stream, entry: Entry, name: String) -> Result<(), AllocError>
        requires fits { IsEntry entry }
        requires room { is_full (on stream self.old).chain ≡ false }
        ensures { OnOk result (self.new ≡ pushed stream entry (string_bytes name) self.old) }
    {
        match stream {
            Stream::Upstream => self.upstream.push(entry, name),
            Stream::Downstream => self.downstream.push(entry, name),
        }
    }
}
