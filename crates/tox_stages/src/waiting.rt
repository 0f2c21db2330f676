//! Pushes and pops that wait while a ring is full or empty, and wake the thread at its other end.
ghost use Rattle.std.specs.Prelude.{◌≡◌, [], ◌∷◌, ◌++◌};
ghost use Rattle.rtrb.specs.Ring.{sent, received, SameProducer, SameConsumer};

use crate::sleepers::Sleepers;
use rtrb::{Consumer, Producer, PushError};
use std::sync::Wait;
use tox_time::Item;

/// Waits until the item is pushed.
pub(crate) fn push_waiting<R: Wait>(
    rt: &R,
    sleepers: &Sleepers<'_>,
    producer: &mut Producer<Item>,
    item: Item,
)
    ensures ring { SameProducer producer.old producer.new }
    ensures sent { sent producer.new ≡ sent producer.old ++ item ∷ [] }
{
    let mut item = item;
    let mut yields = 0;
    for _ in rt.forever() {
        match producer.push(item) {
            Ok(()) => {
                if yields > 0 {
                    sleepers.own.resume();
                }
                sleepers.behind.wake();
                return;
            }
            Err(PushError::Full(back)) => item = back,
        }
        sleepers.own.pause(rt, &mut yields);
    }
    unreachable!()
}

/// Waits for the next item.
pub(crate) fn pop_waiting<R: Wait>(
    rt: &R,
    sleepers: &Sleepers<'_>,
    consumer: &mut Consumer<Item>,
) -> Item
    ensures ring { SameConsumer consumer.old consumer.new }
    ensures received { received consumer.new ≡ received consumer.old ++ result ∷ [] }
{
    let mut yields = 0;
    for _ in rt.forever() {
        if let Ok(item) = consumer.pop() {
            if yields > 0 {
                sleepers.own.resume();
            }
            sleepers.before.wake();
            return item;
        }
        sleepers.own.pause(rt, &mut yields);
    }
    unreachable!()
}
