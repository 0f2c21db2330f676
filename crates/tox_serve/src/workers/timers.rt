//! When which directions of which links are driven, though nothing happens.
ghost use Rattle.std.specs.Prelude.{◌≡◌, All, ◌<◌, ◌≤◌, ◌==◌, [], ◌∷◌, MatchBool, MatchOption, IfSome, IfNone};
ghost use Rattle.std.specs.BinaryHeap.{IsHeap, IsHeap-prop, heap_items};
ghost use Rattle.std.specs.Cmp.{partial_order_from_own_ties};
ghost use Rattle.std.specs.Cmp.Rules.{comparing};
ghost use Rattle.std.specs.List.Sorted.{IsPermutation};
ghost use Rattle.std.specs.Ordering.{as_partial_cmp, nat_cmp, on};
ghost use Rattle.std.proofs.Common.{rules};
ghost use Rattle.tox_serve.specs.workers.DueOrder.{due_of, earlier_first};

use crate::workers::link_key::LinkKey;
use crate::workers::links::Links;
use std::alloc::Global;
use std::cmp::{Ordering, Reverse};
use std::collections::BinaryHeap;
use std::sync::Wait;
use std::time::Clock;
use tox_time::Stream;

/// How many timers there may be at least before those are looked for that no direction waits for any more.
const MIN_LIMIT: usize = 1_024;

/// A direction of a link.
#[derive(Clone, Copy)]
pub(crate) struct Turn {
    pub(crate) key: LinkKey,
    pub(crate) stream: Stream,
}

/// A direction's turn at an instant of the worker's clock. Timers are compared by when they are due.
#[derive(Clone, Copy)]
struct Timer {
    due: u64,
    key: LinkKey,
    down: bool,
}

impl Timer {
    ghost use Rattle.tox_serve.specs.workers.Timers.{timer_of, turn_of};

    /// The timer of a turn.
    fn of(due: u64, turn: Turn) -> Timer
        ensures { result ≡ timer_of due turn }
    {
        Timer {
            due,
            key: turn.key,
            down: turn.stream == Stream::Downstream,
        }
    }

    /// Whose timer it is.
    fn turn(&self) -> Turn
        ensures { result ≡ turn_of self.now }
    {
        let stream = if self.down {
            Stream::Downstream
        } else {
            Stream::Upstream
        };
        Turn {
            key: self.key,
            stream,
        }
    }
}

impl PartialEq for Timer {
    ghost eq = { on due_of ◌==◌ };

    ghost laws = { Prim.search (comparing, rules) };

    fn eq(&self, other: &Timer) -> bool {
        self.due == other.due
    }
}

impl Eq for Timer {
    ghost laws = { Prim.search (comparing, rules) };
}

impl PartialOrd for Timer {
    ghost partial_cmp = { as_partial_cmp (on due_of nat_cmp) };

    ghost laws = { partial_order_from_own_ties (Prim.search (comparing, rules))
        (Prim.search (comparing, rules)) };

    fn partial_cmp(&self, other: &Timer) -> Option<Ordering> {
        Some(self.cmp(other))
    }
}

impl Ord for Timer {
    ghost cmp = { on due_of nat_cmp };

    ghost total = { Prim.search (comparing, rules) };

    ghost matches_partial_cmp = { Prim.search (comparing, rules) };

    ghost matches_eq = { Prim.search (comparing, rules) };

    fn cmp(&self, other: &Timer) -> Ordering {
        self.due.cmp(&other.due)
    }
}

/// The timers of a worker.
#[derive(Drop)]
pub(crate) struct Timers {
    heap: BinaryHeap<Reverse<Timer>>,
    /// How many there may be before those are looked for that no direction waits for any more.
    limit: usize,
    ghost ordered: { IsHeap earlier_first (heap_items heap) } by { IsHeap-prop earlier_first (heap_items heap) },
}

impl Timers {
    ghost use Rattle.tox_serve.specs.workers.Armed.{IsPurged};
    ghost use Rattle.tox_serve.specs.workers.Timers.{IsEarliest, IsNextOf, timer_of, timers_of};

    /// No timers.
    pub(crate) fn new(alloc: Global) -> Timers
        ensures { timers_of result ≡ [] }
    {
        Timers {
            heap: BinaryHeap::new(alloc),
            limit: MIN_LIMIT,
        }
    }

    /// Sets a timer. False if out of memory.
    pub(crate) fn set(&mut self, due: u64, turn: Turn) -> bool
        ensures { MatchBool result
            (IsPermutation (timer_of due turn ∷ timers_of self.old) (timers_of self.new))
            (timers_of self.new ≡ timers_of self.old) }
    {
        self.heap.push(Reverse(Timer::of(due, turn))).is_ok()
    }

    /// Once there are twice as many as were waited for: drops those that no direction waits for any more, such as those of
    /// links that have ended.
    pub(crate) fn purge<R: Clock + Wait>(&mut self, links: &Links<'_, R>)
        ensures { IsPurged links.now.places (timers_of self.old) (timers_of self.new) }
    {
        if self.heap.len() < self.limit {
            return;
        }
        self.heap
            .retain(|Reverse(timer)| links.is_armed(timer.turn(), timer.due));
        self.limit = self.heap.len().saturating_mul(2).max(MIN_LIMIT);
    }

    /// When the next is due.
    pub(crate) fn next_due(&self) -> Option<u64>
        ensures { MatchOption result (timers_of self.now ≡ []) (IsEarliest (timers_of self.now)) }
    {
        match self.heap.peek() {
            Some(Reverse(timer)) => Some(timer.due),
            None => None,
        }
    }

    /// Takes the next turn that is due, with its instant.
    pub(crate) fn pop_due(&mut self, now: u64) -> Option<(u64, Turn)>
        ensures some { IfSome result (λ taken. (taken.0 ≤ now)
            × IsNextOf (timers_of self.old) (timers_of self.new) taken.0 taken.1) }
        ensures none { IfNone result (All (λ timer. now < timer.due) (timers_of self.old)
            × (timers_of self.new ≡ timers_of self.old)) }
    {
        if self.next_due()? > now {
            return None;
        }
        let Some(Reverse(timer)) = self.heap.pop() else {
            return None;
        };
        Some((timer.due, timer.turn()))
    }
}
