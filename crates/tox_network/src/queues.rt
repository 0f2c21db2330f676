//! The queues between stages.
ghost use Rattle.std.specs.Prelude.{◌≡◌, ◌≢◌, ◌<◌, ◌↔◌, ◌++◌, ◌∷◌, [], IsTrue, IfOk, length, replicate, slice_set, drop};
ghost use Rattle.tox_network.specs.Queued.{list_at};

use std::alloc::{AllocError, Global};
use std::collections::VecDeque;
use std::marker::Model;
use tox_time::Item;

/// Queues with room for the same number of items each, allocated at the start.
#[derive(Drop)]
pub(crate) struct Queues {
    queues: Vec<VecDeque<Item>>,
    room: usize,
}

impl Model for Queues {
    ghost use Rattle.std.specs.Prelude.{◌≡◌, map};
    ghost use Rattle.std.specs.List.{All};
    ghost use Rattle.std.specs.VecDeque.{deque_capacity};
    ghost use Rattle.tox_network.specs.Queued.{Queued};

    ghost Value = { Queued };

    ghost view = { λ q. record { room = q.room; lists = map (λ queue. queue.items) q.queues.items } };

    ghost invariant = { λ q. All (λ queue. deque_capacity queue ≡ q.room) q.queues.items };
}

impl Queues {
    /// Empty queues.
    pub(crate) fn new(alloc: Global, count: usize, room: usize) -> Result<Queues, AllocError>
        ensures room { IfOk result (λ queues. queues.room ≡ room) }
        ensures empty { IfOk result (λ queues. queues.lists ≡ replicate count []) }
    {
        let mut queues = Vec::with_capacity(alloc, count)?;
        for _ in 0..count {
            queues.push(VecDeque::with_capacity(alloc, room)?)?;
        }
        Ok(Queues { queues, room })
    }

    pub(crate) fn has_room(&self, place: usize) -> bool
        requires { place < length self.now.lists }
        ensures { IsTrue result ↔ (length (list_at self.now place) < self.now.room) }
    {
        self.queues[place].len() < self.room
    }

    pub(crate) fn is_empty(&self, place: usize) -> bool
        requires { place < length self.now.lists }
        ensures { IsTrue result ↔ (list_at self.now place ≡ []) }
    {
        self.queues[place].is_empty()
    }

    /// Appends an item to a queue.
    pub(crate) fn push(&mut self, place: usize, item: Item)
        requires place { place < length self.old.lists }
        requires room { length (list_at self.old place) < self.old.room }
        ensures room { self.new.room ≡ self.old.room }
        ensures pushed { self.new.lists
            ≡ slice_set self.old.lists place (list_at self.old place ++ item ∷ []) }
    {
        let queue = &mut self.queues[place];
        queue.push_back_reserved(item);
    }

    /// The first item of a queue.
    pub(crate) fn first(&self, place: usize) -> Item
        requires place { place < length self.now.lists }
        requires some { list_at self.now place ≢ [] }
        ensures { list_at self.now place ≡ result ∷ drop 1 (list_at self.now place) }
    {
        match self.queues[place].front() {
            Some(item) => *item,
            None => unreachable!(),
        }
    }

    /// Takes the first item of a queue.
    pub(crate) fn pop(&mut self, place: usize) -> Item
        requires place { place < length self.old.lists }
        requires some { list_at self.old place ≢ [] }
        ensures room { self.new.room ≡ self.old.room }
        ensures first { list_at self.old place ≡ result ∷ drop 1 (list_at self.old place) }
        ensures popped { self.new.lists
            ≡ slice_set self.old.lists place (drop 1 (list_at self.old place)) }
    {
        let queue = &mut self.queues[place];
        match queue.pop_front() {
            Some(item) => item,
            None => unreachable!(),
        }
    }
}
