//! How many items a ring between threads holds.
ghost use Rattle.std.specs.Prelude.{◌≡◌, ◌<◌, ◌≤◌};

use std::marker::Model;

/// The most items of a ring.
pub const MAX_CAP: usize = 1024;

/// The room of each ring, 1 to 1024 items. Contracts see it as a number.
#[derive(Debug, Drop)]
pub struct Cap {
    items: usize,
}

impl Model for Cap {
    ghost use Rattle.std.specs.Prelude.{ℕ, ◌≤◌};

    ghost Value = { ℕ };

    ghost view = { λ cap. cap.items };

    ghost invariant = { λ cap. (1 ≤ cap.items) × (cap.items ≤ 1024) };
}

impl Cap {
    /// Room for `items`, or for as many of them as a ring may have.
    pub fn new(items: usize) -> Cap
        ensures least { items < 1 → result ≡ 1 }
        ensures within { 1 ≤ items → items ≤ 1024 → result ≡ items }
        ensures most { 1024 < items → result ≡ 1024 }
    {
        Cap {
            items: items.clamp(1, MAX_CAP),
        }
    }

    /// The room in items.
    pub fn items(&self) -> usize
        ensures given { result ≡ self.now }
        ensures some { 1 ≤ result }
        ensures most { result ≤ 1024 }
    {
        self.items
    }
}
