//! The worker of one stage.
ghost use Rattle.std.specs.Prelude.{◌≡◌, [], ◌++◌};
ghost use Rattle.rtrb.specs.Ring.{sent, received, SameProducer, SameConsumer};
ghost use Rattle.tox_words.specs.Draw.{draw_in};
ghost use Rattle.tox_defs.specs.Flow.{IsPlaced, placed_reaction};
ghost use Rattle.tox_stages.specs.Passing.{SendsFlow};

use crate::sleepers::Sleepers;
use crate::waiting::{pop_waiting, push_waiting};
use rtrb::{Consumer, Producer};
use std::snapshot::Snapshot;
use std::sync::Wait;
use std::thread::Promise;
use tox_defs::{Placed, Stage};
use tox_time::{Gate, Item, MAX_BYTES};
use tox_words::{Lanes, Words};

/// The two ends that a worker hands back.
#[derive(Drop)]
pub(crate) struct RingEnds {
    pub(crate) consumer: Consumer<Item>,
    pub(crate) producer: Producer<Item>,
}

/// A worker's promise: these are the ends that it was given, and it sent the flow of what it received.
#[derive(Drop)]
pub(crate) struct SendsFlowOf<'w> {
    pub(crate) placed: Placed,
    pub(crate) lanes: Lanes,
    pub(crate) words: &'w Words,
    pub(crate) consumer: Snapshot<Consumer<Item>>,
    pub(crate) producer: Snapshot<Producer<Item>>,
}

impl<'w> Promise<RingEnds> for SendsFlowOf<'w> {
    ghost kept_by = { λ promise ends.
        SameConsumer promise.consumer.value ends.consumer
        × SameProducer promise.producer.value ends.producer
        × SendsFlow (placed_reaction (draw_in promise.lanes promise.words.now) promise.placed)
        (received ends.consumer) (sent ends.producer) };
}

/// Sends all that the stage has to emit.
fn emit_all<R: Wait>(
    rt: &R,
    sleepers: &Sleepers<'_>,
    stage: &mut Stage<'_>,
    producer: &mut Producer<Item>,
)
    ensures ring { SameProducer producer.old producer.new }
    ensures sent { sent producer.new ≡ sent producer.old ++ stage.old.pending }
    ensures stage { stage.new ≡ record stage.old { pending = [] } }
{
    while let Some(item) = stage.emit() {
        push_waiting(rt, sleepers, producer, item);
    }
}

/// Takes items until the final, and sends what the toxic gives for each.
///
/// Stops defensively at an item that does not follow those before it; none comes.
pub(crate) fn work<R: Wait, G: Gate>(
    rt: &R,
    gate: &G,
    stage_number: usize,
    placed: Placed,
    lanes: Lanes,
    words: &Words,
    sleepers: &Sleepers<'_>,
    consumer: Consumer<Item>,
    producer: Producer<Item>,
) -> RingEnds
    requires placed { IsPlaced lanes placed }
    requires fresh { (received consumer ≡ []) × (sent producer ≡ []) }
    ensures consumer { SameConsumer consumer result.consumer }
    ensures producer { SameProducer producer result.producer }
    ensures flow { SendsFlow (placed_reaction (draw_in lanes words.now) placed)
        (received result.consumer) (sent result.producer) }
{
    let mut stage = Stage::new(placed.toxic, lanes, placed.place, words);
    let mut consumer = consumer;
    let mut producer = producer;
    for nth in 0..=MAX_BYTES {
        let item = pop_waiting(rt, sleepers, &mut consumer);
        gate.pass(stage_number, nth);
        if !stage.may_take(&item) {
            push_waiting(rt, sleepers, &mut producer, Item::Quiet);
            return RingEnds { consumer, producer };
        }
        let is_last = item.is_final();
        stage.take(item);
        emit_all(rt, sleepers, &mut stage, &mut producer);
        if is_last {
            return RingEnds { consumer, producer };
        }
    }
    unreachable!()
}
