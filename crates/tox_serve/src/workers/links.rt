//! The links of a worker, in slots that are used again.
ghost use Rattle.std.specs.Prelude.{◌≡◌, ◌<◌, ◌+◌, ◌%◌, ◌^◌, IfSome, None, Some};
ghost use Rattle.slab.specs.Slab.{Updates, get, slab_len};
ghost use Rattle.tox_serve.specs.workers.Places.{freed, key_at, link_state_of, with_link_state};

use crate::workers::link_key::LinkKey;
use crate::workers::link_state::LinkState;
use crate::workers::subject::MAX_SLOTS;
use crate::workers::timers::Turn;
use slab::Slab;
use std::alloc::Global;
use std::sync::Wait;
use std::time::Clock;

/// A slot: the generation of the link that has it, and how far the link is, unless it is being driven.
#[derive(Drop)]
pub(crate) struct Place<'r, R> {
    pub(crate) generation: u32,
    pub(crate) state: Option<LinkState<'r, R>>,
}

/// The links of a worker.
#[derive(Drop)]
pub(crate) struct Links<'r, R> {
    pub(crate) places: Slab<Place<'r, R>, Global>,
    /// The generation of the next link.
    next: u32,
}

impl<'r, R: Clock + Wait> Links<'r, R> {
    ghost use Rattle.tox_serve.specs.workers.Armed.{is_place_armed};

    /// No links.
    pub(crate) fn new(alloc: Global) -> Links<'r, R> {
        Links {
            places: Slab::new(alloc),
            next: 0,
        }
    }

    pub(crate) fn is_empty(&self) -> bool {
        self.places.is_empty()
    }

    /// How many links there are.
    pub(crate) fn len(&self) -> usize
        ensures { result ≡ slab_len self.now.places }
    {
        self.places.len()
    }

    /// How many slots there are.
    pub(crate) fn slots(&self) -> usize
        ensures { result ≡ self.now.places.capacity }
    {
        self.places.capacity()
    }

    /// The key of the link in a slot, if there is one.
    pub(crate) fn key_at(&self, slot: usize) -> Option<LinkKey>
        ensures { result ≡ key_at slot (get self.now.places slot) }
    {
        if slot >= MAX_SLOTS {
            return None;
        }
        let place = self.places.get(slot)?;
        Some(LinkKey {
            slot: slot as u32,
            generation: place.generation,
        })
    }

    /// A place for one more link. None if out of memory.
    pub(crate) fn open(&mut self) -> Option<LinkKey>
        ensures fits { IfSome result (λ key. key.slot < 2 ^ 30) }
        ensures its { IfSome result (λ key. key.generation ≡ self.old.next) }
        ensures next { self.new.next ≡ (self.old.next + 1) % 2 ^ 32 }
        ensures free { IfSome result (λ key. get self.old.places key.slot ≡ None) }
        ensures opens { IfSome result (λ key. Updates self.old.places self.new.places key.slot
            (Some (record { generation = key.generation; state = None }))) }
    {
        let generation = self.next;
        self.next = generation.wrapping_add(1);
        let place = Place {
            generation,
            state: None,
        };
        let slot = self.places.insert(place).ok()?;
        if slot >= MAX_SLOTS {
            let refused = self.places.try_remove(slot);
            drop(refused);
            return None;
        }
        Some(LinkKey {
            slot: slot as u32,
            generation,
        })
    }

    /// Whether a link waits for a timer that is due at an instant.
    pub(crate) fn is_armed(&self, turn: Turn, due: u64) -> bool
        ensures { result ≡ is_place_armed turn due (get self.now.places turn.key.slot) }
    {
        let Turn { key, stream } = turn;
        match self.places.get(key.slot as usize) {
            Some(place) if place.generation == key.generation => match &place.state {
                Some(LinkState::Open(open)) => open.is_armed(stream, due),
                Some(LinkState::Connecting(connecting)) => connecting.deadline == Some(due),
                Some(LinkState::Lacking(lacking)) => lacking.due == due,
                _ => false,
            },
            _ => false,
        }
    }

    /// Takes a link out of its place, to drive it. None if the key is that of a link that has ended.
    pub(crate) fn take(&mut self, key: LinkKey) -> Option<LinkState<'r, R>>
        ensures takes { result ≡ link_state_of key.generation (get self.old.places key.slot) }
        ensures leaves { Updates self.old.places self.new.places key.slot
            (with_link_state key.generation None (get self.old.places key.slot)) }
    {
        let place = self.places.get_mut(key.slot as usize)?;
        if place.generation != key.generation {
            return None;
        }
        place.state.take()
    }

    /// Puts a link back into its place.
    pub(crate) fn put(&mut self, key: LinkKey, state: LinkState<'r, R>)
        ensures { Updates self.old.places self.new.places key.slot
            (with_link_state key.generation (Some state.entry) (get self.old.places key.slot)) }
    {
        let Some(place) = self.places.get_mut(key.slot as usize) else {
            return;
        };
        if place.generation == key.generation {
            place.state = Some(state);
        }
    }

    /// Frees the place of a link that was taken out. Its key names no link from now on.
    pub(crate) fn close(&mut self, key: LinkKey)
        ensures { Updates self.old.places self.new.places key.slot
            (freed key.generation (get self.old.places key.slot)) }
    {
        let slot = key.slot as usize;
        match self.places.get(slot) {
            Some(place) if place.generation == key.generation => {}
            _ => return,
        }
        let closed = self.places.try_remove(slot);
        drop(closed);
    }
}
