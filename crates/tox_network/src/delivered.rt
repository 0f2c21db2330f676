//! The list of delivered items.
ghost use Rattle.std.specs.Prelude.{◌≡◌, [], ◌∷◌, ◌++◌, true, false, Some, OnOk, OnErr};
ghost use Rattle.tox_time.specs.streams.Stream.{has_final, is_final};
ghost use Rattle.tox_network.specs.Shown.{shown};

use std::alloc::{AllocError, Global};
use std::marker::Model;
use tox_time::{Ending, Item, Outcome, Slice, SliceList};

/// The delivered items: a slice for each chunk, and the ending of the final.
#[derive(Drop)]
pub struct Delivered {
    slices: SliceList,
    ending: Option<Ending>,
}

impl Model for Delivered {
    ghost use Rattle.std.specs.Prelude.{List};
    ghost use Rattle.tox_time.specs.declared.streams.item.Item.{Item as OneItem};
    ghost use Rattle.tox_network.specs.Shown.{shown};

    ghost Value = { List OneItem };

    ghost view = { λ d. shown d.slices d.ending };
}

impl Delivered {
    /// Nothing delivered. Allocates nothing.
    pub fn new(alloc: Global) -> Delivered
        ensures { result ≡ [] }
    {
        Delivered {
            slices: SliceList::new(alloc),
            ending: None,
        }
    }

    /// Adds an item. Only a chunk allocates.
    pub fn push(&mut self, item: Item) -> Result<(), AllocError>
        requires { has_final self.old ≡ false }
        ensures ok { OnOk result (self.new ≡ self.old ++ item ∷ []) }
        ensures err { OnErr result (self.new ≡ self.old) }
        ensures chunk { OnErr result (is_final item ≡ false) }
    {
        match item {
            Item::Chunk(span, instant) => self.slices.push(Slice { span, instant })?,
            Item::Closed(instant) => self.ending = Some(Ending::Closed(instant)),
            Item::Reset(instant) => self.ending = Some(Ending::Reset(instant)),
            Item::Quiet => self.ending = Some(Ending::StillOpen),
        }
        Ok(())
    }

    /// The slices and the ending.
    pub fn into_outcome(self) -> Outcome
        requires { has_final self ≡ true }
        ensures { shown result.slices (Some result.ending) ≡ self }
    {
        let Delivered { slices, ending } = self;
        match ending {
            Some(ending) => Outcome { slices, ending },
            None => unreachable!(),
        }
    }
}
