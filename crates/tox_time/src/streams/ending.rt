//! How a link ends.
ghost use Rattle.std.specs.Prelude.{◌≡◌};

use crate::micros::Micros;
use crate::streams::item::Item;

/// How a link ends.
#[derive(Clone, Copy, Debug, PartialEq, Eq, Hash)]
pub enum Ending {
    /// It stays open: the last item is `Quiet`.
    StillOpen,
    Closed(Micros),
    Reset(Micros),
}

impl Ending {
    ghost use Rattle.tox_time.specs.streams.Table.{final_of};

    /// The final that ends a link in this way.
    pub fn to_item(&self) -> Item
        ensures { result ≡ final_of self.now }
    {
        match self {
            Ending::StillOpen => Item::Quiet,
            Ending::Closed(instant) => Item::Closed(*instant),
            Ending::Reset(instant) => Item::Reset(*instant),
        }
    }
}
