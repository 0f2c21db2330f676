//! Chains: the toxics of one stream of a link, each with its toxicity.
ghost use Rattle.std.specs.Prelude.{◌≡◌, ℕ, ◌+◌, ◌<◌, ◌≤◌, ◌↔◌, List, [], ◌∷◌, ◌++◌, length, slice_get, Some, IsTrue, IsOk, OnOk, OnErr, IsSomeAnd};
ghost use Rattle.tox_words.specs.declared.lanes.Lanes.TheVariants.{Sixteen};
ghost use Rattle.tox_words.specs.Draw.{draws_of, lane_count};
ghost use Rattle.tox_defs.specs.chain.Applied.{is_applied};

pub(crate) mod applied;

use crate::fault::TooManyToxics;
use crate::toxic::Toxic;
use arrayvec::ArrayVec;
use std::marker::Model;
use tox_words::{Drawing, Lanes, MAX_LANES};

/// The most toxics of a chain: one for each lane.
pub const MAX_TOXICS: usize = MAX_LANES;

/// The greatest toxicity, in thousandths, and the default.
pub const MAX_TOXICITY: u16 = 1000;

/// A toxic of a chain.
#[derive(Clone, Copy, Debug, PartialEq, Eq)]
pub struct Entry {
    pub toxic: Toxic,
    /// The chance that a link meets the toxic, in thousandths: 0 to 1000.
    pub toxicity: u16,
}

impl Entry {
    /// Whether a link that draws these words meets the toxic at this place of its chain: the first word of the place's
    /// lane, modulo 1000, is below the toxicity.
    pub fn is_applied(&self, place: usize, drawing: &Drawing<'_>) -> bool
        ensures { result ≡ is_applied self.now place (draws_of drawing.now) }
    {
        drawing.draw(place, 0) % 1000 < u32::from(self.toxicity)
    }
}

impl Default for Entry {
    ghost use Rattle.std.specs.Prelude.{◌≡◌};
    ghost use Rattle.tox_defs.specs.declared.toxic.Toxic.TheVariants.{Latency};

    ghost is_default = { λ entry. entry ≡ record { toxic = Latency 0 0 0 0; toxicity = 0 } };

    /// A latency of zero that no link meets.
    fn default() -> Self {
        Entry {
            toxic: Toxic::Latency {
                latency: 0,
                jitter: 0,
                until: 0,
                from: 0,
            },
            toxicity: 0,
        }
    }
}

/// The toxics of one stream of a link, in order, each with its toxicity: at most one for each lane.
#[derive(Drop)]
pub struct Chain {
    lanes: Lanes,
    entries: ArrayVec<Entry, MAX_TOXICS>,
}

impl Model for Chain {
    ghost use Rattle.tox_defs.specs.chain.Chain.{Toxics};

    ghost Value = { Toxics };

    ghost use Rattle.tox_defs.specs.chain.ChainInside.{toxics, KeepsChain};

    ghost view = { toxics };

    ghost invariant = { KeepsChain };
}

impl Chain {
    ghost use Rattle.tox_defs.specs.Toxic.{IsInRange};
    ghost use Rattle.tox_defs.specs.chain.Chain.{IsChain, is_full};
    ghost use Rattle.tox_defs.specs.Flow.{chain_flow};
    ghost use Rattle.tox_defs.specs.Laws.{IsKeptBy};
    ghost use Rattle.tox_time.specs.declared.streams.item.Item.{Item as OneItem};
    ghost use Rattle.tox_time.specs.streams.Stream.{IsStream, arrived};

    /// The empty chain of 16 lanes, which changes nothing.
    pub fn new() -> Chain
        ensures { result ≡ record { lanes = Sixteen; entries = [] } }
    {
        Chain::with_lanes(Lanes::Sixteen)
    }

    /// The empty chain of so many lanes.
    pub fn with_lanes(lanes: Lanes) -> Chain
        ensures { result ≡ record { lanes = lanes; entries = [] } }
    {
        Chain {
            lanes,
            entries: ArrayVec::new(),
        }
    }

    /// The lanes that the toxics draw from, one for each place.
    pub fn lanes(&self) -> Lanes
        ensures { result ≡ self.now.lanes }
    {
        self.lanes
    }

    /// Adds a toxic behind the others. A refusal leaves the chain unchanged.
    pub fn push(&mut self, toxic: Toxic, toxicity: u16) -> Result<(), TooManyToxics>
        requires in_range { IsInRange toxic }
        requires thousandths { toxicity ≤ 1000 }
        ensures room { IsOk result ↔ (length self.old.entries < lane_count self.old.lanes) }
        ensures ok { OnOk result (self.new.entries
            ≡ self.old.entries ++ record { toxic = toxic; toxicity = toxicity } ∷ []) }
        ensures kept { self.new.lanes ≡ self.old.lanes }
        ensures err { OnErr result (self.new ≡ self.old) }
    {
        if self.is_full() {
            return Err(TooManyToxics);
        }
        self.entries.push(Entry { toxic, toxicity });
        Ok(())
    }

    /// Whether each lane has its toxic.
    pub fn is_full(&self) -> bool
        ensures { result ≡ is_full self.now }
    {
        self.len() >= self.lanes.count()
    }

    /// How many toxics there are, 0 to the number of lanes.
    pub fn len(&self) -> usize
        ensures value { result ≡ length self.now.entries }
        ensures chain { IsChain self.now }
    {
        self.entries.len()
    }

    pub fn is_empty(&self) -> bool
        ensures { IsTrue result ↔ (self.now.entries ≡ []) }
    {
        self.entries.is_empty()
    }

    /// The toxics in order, each at its place.
    pub fn entries(&self) -> &[Entry]
        ensures value { result.now ≡ self.now.entries }
        ensures chain { IsChain self.now }
    {
        &self.entries
    }

    /// The toxic at a place from 0.
    pub fn toxic(&self, place: usize) -> Toxic
        requires { place < length self.now.entries }
        ensures value { IsSomeAnd (slice_get self.now.entries place)
            (λ entry. result ≡ entry.toxic) }
        ensures in_range { IsInRange result }
    {
        self.entries[place].toxic
    }

    /// The toxicity at a place from 0, in thousandths.
    pub fn toxicity(&self, place: usize) -> u16
        requires { place < length self.now.entries }
        ensures value { IsSomeAnd (slice_get self.now.entries place)
            (λ entry. result ≡ entry.toxicity) }
        ensures bound { result ≤ 1000 }
    {
        self.entries[place].toxicity
    }

    /// A lemma as a function, with no runtime effect: for every table of words a chain gives a stream for a stream,
    /// with no more bytes, and so with at most one item more than bytes.
    pub fn gives_streams(&self)
        ensures keeps { (words : List ℕ) (items : List OneItem) → IsStream items
            → IsKeptBy items (chain_flow self.now words items) }
        ensures few { (words : List ℕ) (items : List OneItem) → IsStream items
            → length (chain_flow self.now words items) ≤ arrived items + 1 }
    {
        let _ = &self.entries;
    }
}
