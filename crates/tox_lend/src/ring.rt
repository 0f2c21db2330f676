//! Rings whose elements lie at the start of their memory again once they were empty.
ghost use Rattle.std.specs.Prelude.{◌≡◌, ◌+◌, ◌++◌, drop, length, option_to_list, slice_get};
ghost use Rattle.std.specs.VecDeque.{deque_capacity, deque_len};

use std::collections::VecDeque;
use std::mem::replace;

/// Takes the first element, or None if there is none. A ring that it empties starts at its first cell again, so that few cells
/// are ever touched where few elements wait.
pub fn take_front<T: Drop>(ring: &mut VecDeque<T>) -> Option<T>
    ensures items { ring.old.items ≡ option_to_list result ++ ring.new.items }
    ensures first { result ≡ slice_get ring.old.items 0 }
    ensures rest { ring.new.items ≡ drop 1 ring.old.items }
    ensures len { deque_len ring.new + length (option_to_list result) ≡ deque_len ring.old }
    ensures capacity { deque_capacity ring.new ≡ deque_capacity ring.old }
{
    let first = ring.pop_front();
    if ring.is_empty() {
        start_again(ring);
    }
    first
}

/// Lets the ring start at its first cell. It takes no memory, and moves nothing if the ring is empty.
fn start_again<T: Drop>(ring: &mut VecDeque<T>)
    ensures items { ring.new.items ≡ ring.old.items }
    ensures len { deque_len ring.new ≡ deque_len ring.old }
    ensures capacity { deque_capacity ring.new ≡ deque_capacity ring.old }
{
    let none = VecDeque::new(*ring.allocator());
    let cells = replace(ring, none).into_vec();
    *ring = VecDeque::from_vec(cells);
}
