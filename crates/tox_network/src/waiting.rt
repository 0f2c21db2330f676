//! The arrivals that wait in front of a network.
ghost use Rattle.std.specs.Prelude.{◌≡◌, ◌≢◌, ◌≤◌, ◌↔◌, ◌^◌, [], ◌∷◌, IsTrue, not};
ghost use Rattle.std.specs.List.{list_all};
ghost use Rattle.tox_time.specs.streams.Arrivals.{arrival_list};
ghost use Rattle.tox_time.specs.streams.Stream.{IsArrivalList, arrived, is_final};

use std::marker::Model;
use tox_time::{Arrivals, Item};

/// The arrivals that have not entered the network yet, with the final `Quiet` that isn't stored.
#[derive(Drop)]
pub struct Waiting<'a> {
    items: &'a [Item],
    entered: usize,
    quiet: bool,
}

impl<'a> Model for Waiting<'a> {
    ghost use Rattle.tox_network.specs.Arriving.{Arriving};

    ghost Value = { Arriving };

    ghost use Rattle.tox_network.specs.WaitingInside.{arriving, KeepsWaiting};

    ghost view = { arriving };

    ghost invariant = { KeepsWaiting };
}

/// Whether no item is a final.
fn is_open(items: &[Item]) -> bool
    ensures { result ≡ list_all (λ item. not (is_final item)) items.now }
{
    items.iter().all(
        |item| -> bool
            ensures { result ≡ not (is_final item.now) }
        { matches!(item, Item::Chunk(..)) },
    )
}

impl<'a> Waiting<'a> {
    /// All arrivals wait.
    pub fn new(arrivals: &'a Arrivals) -> Waiting<'a>
        ensures all { result
            ≡ record { arrived = arrival_list arrivals.now; waiting = arrival_list arrivals.now } }
        ensures list { IsArrivalList (arrival_list arrivals.now) }
        ensures bound { arrived (arrival_list arrivals.now) ≤ 2 ^ 40 }
    {
        let items = arrivals.items();
        Waiting {
            items,
            entered: 0,
            quiet: is_open(items),
        }
    }

    pub fn is_empty(&self) -> bool
        ensures { IsTrue result ↔ (self.now.waiting ≡ []) }
    {
        self.entered == self.items.len() && !self.quiet
    }

    /// Takes the next arrival.
    pub fn pop(&mut self) -> Item
        requires { self.old.waiting ≢ [] }
        ensures next { self.old.waiting ≡ result ∷ self.new.waiting }
        ensures arrived { self.new.arrived ≡ self.old.arrived }
    {
        if self.entered < self.items.len() {
            let item = self.items[self.entered];
            self.entered += 1;
            return item;
        }
        self.quiet = false;
        Item::Quiet
    }
}
