//! The two ends of the chain, held by one thread: what arrives is sent, and what is delivered is collected.
ghost use Rattle.std.specs.Prelude.{◌≡◌, ◌<◌, [], ◌++◌, length, Some, false, IsTrue, IfOk, IfErr};
ghost use Rattle.rtrb.specs.Ring.{sent, received, SameProducer, SameConsumer};
ghost use Rattle.tox_time.specs.streams.Arrivals.{arrival_list};
ghost use Rattle.tox_network.specs.Shown.{shown};
ghost use Rattle.tox_stages.specs.Collecting.{Collects};
ghost use Rattle.tox_stages.specs.Passing.{Delivers, SendsAll};
ghost use Rattle.tox_stages.specs.declared.fault.StageFault.TheVariants.{OutOfMemory};

use crate::collected::Collected;
use crate::fault::StageFault;
use crate::sleepers::Sleepers;
use rtrb::{Consumer, Producer};
use std::alloc::Global;
use std::sync::Wait;
use tox_network::Waiting;
use tox_time::{Arrivals, Item, Outcome};

/// Sends arrivals while the ring has room. Returns whether one was sent.
fn fill(first: &mut Producer<Item>, waiting: &mut Waiting<'_>) -> bool
    ensures ring { SameProducer first.old first.new }
    ensures sent { sent first.new ++ waiting.new.waiting ≡ sent first.old ++ waiting.old.waiting }
    ensures some { IsTrue result → length (sent first.old) < length (sent first.new) }
    ensures none { result ≡ false → sent first.new ≡ sent first.old }
{
    let mut has_sent = false;
    while !waiting.is_empty() && !first.is_full() {
        first.push_reserved(waiting.pop());
        has_sent = true;
    }
    has_sent
}

/// Collects what is in the ring, up to the final. Returns whether an item came.
fn drain(consumer: &mut Consumer<Item>, collected: &mut Collected) -> bool
    requires { Collects collected.old (received consumer.old) }
    ensures ring { SameConsumer consumer.old consumer.new }
    ensures kept { Collects collected.new (received consumer.new) }
    ensures some { IsTrue result
        → length (received consumer.old) < length (received consumer.new) }
    ensures none { result ≡ false → received consumer.new ≡ received consumer.old }
{
    let mut has_come = false;
    for _ in 0..consumer.capacity() {
        if collected.has_ended() {
            return has_come;
        }
        let Ok(item) = consumer.pop() else {
            return has_come;
        };
        collected.keep(item);
        has_come = true;
    }
    has_come
}

/// Sends the arrivals with their final into the first ring and collects what comes out of the last, in turn, until
/// both are done.
pub(crate) fn feed_and_drain<R: Wait>(
    rt: &R,
    alloc: Global,
    sleepers: &Sleepers<'_>,
    arrivals: &Arrivals,
    first: &mut Producer<Item>,
    consumer: Consumer<Item>,
) -> Result<(Consumer<Item>, Outcome), StageFault>
    requires { (sent first.old ≡ []) × (received consumer ≡ []) }
    ensures first { SameProducer first.old first.new }
    ensures consumer { IfOk result (λ ended. SameConsumer consumer ended.0) }
    ensures sent { SendsAll (arrival_list arrivals.now) (sent first.new) }
    ensures delivered { IfOk result
        (λ ended. Delivers [] (received ended.0) (shown ended.1.slices (Some ended.1.ending))) }
    ensures err { IfErr result (λ fault. fault ≡ OutOfMemory) }
{
    let mut waiting = Waiting::new(arrivals);
    let mut consumer = consumer;
    let mut collected = Collected::new(alloc);
    let mut yields = 0;
    for _ in rt.forever() {
        let has_sent = fill(first, &mut waiting);
        if has_sent {
            sleepers.behind.wake();
        }
        let has_come = drain(&mut consumer, &mut collected);
        if has_come {
            sleepers.before.wake();
        }
        if waiting.is_empty() && collected.has_ended() {
            let Ok(outcome) = collected.into_outcome() else {
                return Err(StageFault::OutOfMemory);
            };
            return Ok((consumer, outcome));
        }
        if has_sent || has_come {
            yields = 0;
            sleepers.own.resume();
        } else {
            sleepers.own.pause(rt, &mut yields);
        }
    }
    unreachable!()
}
