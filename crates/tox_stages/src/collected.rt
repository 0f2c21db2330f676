//! What comes out of the last ring.
ghost use Rattle.std.specs.Prelude.{◌≡◌, List, [], ◌∷◌, ◌++◌, Some, true, false, IfOk};
ghost use Rattle.tox_time.specs.declared.streams.item.Item.{Item as OneItem};
ghost use Rattle.tox_time.specs.streams.Stream.{has_final, is_final};
ghost use Rattle.tox_network.specs.Shown.{shown};

use std::alloc::{AllocError, Global};
use tox_network::Delivered;
use tox_time::{Item, Outcome};

/// What came out of the last ring, up to the final. Once out of memory, nothing more is kept.
#[derive(Drop)]
pub(crate) struct Collected {
    delivered: Delivered,
    ended: bool,
    refused: bool,
    ghost known: { refused ≡ false → has_final delivered ≡ ended },
}

impl Collected {
    ghost use Rattle.tox_stages.specs.Collecting.{Collects};

    /// Nothing came yet. Takes no memory.
    pub(crate) fn new(alloc: Global) -> Collected
        ensures { Collects result [] }
    {
        Collected {
            delivered: Delivered::new(alloc),
            ended: false,
            refused: false,
        }
    }

    /// Whether the final came.
    pub(crate) fn has_ended(&self) -> bool
        ensures { result ≡ self.now.ended }
    {
        self.ended
    }

    /// Keeps an item, unless out of memory now or before.
    pub(crate) fn keep(&mut self, item: Item)
        requires { self.old.ended ≡ false }
        ensures kept { (items : List OneItem) → Collects self.old items
            → Collects self.new (items ++ item ∷ []) }
    {
        self.ended = item.is_final();
        if !self.refused {
            self.refused = self.delivered.push(item).is_err();
        }
    }

    /// What came, up to its final.
    pub(crate) fn into_outcome(self) -> Result<Outcome, AllocError>
        requires { self.ended ≡ true }
        ensures { IfOk result
            (λ outcome. (items : List OneItem) → Collects self items
            → shown outcome.slices (Some outcome.ending) ≡ items) }
    {
        let Collected {
            delivered,
            ended: _,
            refused,
        } = self;
        if refused {
            return Err(AllocError);
        }
        Ok(delivered.into_outcome())
    }
}
