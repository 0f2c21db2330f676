//! The chain of workers, built level by level.
ghost use Rattle.std.specs.Prelude.{◌≡◌, ◌≢◌, ◌+◌, ◌≤◌, All, [], length, map, true, Some, IfOk, IfSome, Err};
ghost use Rattle.rtrb.specs.Ring.{sent, received, SameProducer, SameConsumer};
ghost use Rattle.tox_time.specs.streams.Arrivals.{arrival_list};
ghost use Rattle.tox_time.specs.streams.Neighbours.{AreNeighbours};
ghost use Rattle.tox_time.specs.streams.Stream.{has_final};
ghost use Rattle.tox_time.specs.streams.Table.{IsOutcomeOf};
ghost use Rattle.tox_words.specs.Draw.{draw_in};
ghost use Rattle.tox_defs.specs.Flow.{IsPlaced, applied, chain_flow, placed_reaction};
ghost use Rattle.tox_network.specs.Shown.{shown};
ghost use Rattle.tox_stages.specs.AtRest.{IsNetworkAtRest};
ghost use Rattle.tox_stages.specs.Passing.{Delivers, SendsAll, SendsFlow};
ghost use Rattle.tox_stages.specs.Workers.{IsWorkerOf};
ghost use Rattle.tox_stages.specs.declared.fault.StageFault.TheVariants.{SpawnRefused};

use crate::fault::StageFault;
use crate::sleepers::{Circle, Sleepers};
use crate::source_and_sink::feed_and_drain;
use crate::waiting::push_waiting;
use crate::worker::{RingEnds, SendsFlowOf, work};
use rtrb::{Consumer, Producer, RingBuffer};
use std::alloc::Global;
use std::snapshot::Snapshot;
use std::sync::Wait;
use std::thread;
use std::thread::{PromisedHandle, Scope, Threads};
use tox_defs::{Chain, Placed};
use tox_time::{Arrivals, Gate, Item, Outcome};
use tox_words::{Lanes, Words};

/// What all levels share.
#[derive(Drop)]
struct Pipeline<'s, R, G> {
    rt: &'s R,
    alloc: Global,
    lanes: Lanes,
    words: &'s Words,
    arrivals: &'s Arrivals,
    cap: usize,
    gate: &'s G,
    sleepers: &'s Circle,
}

/// A worker that was started, and the consumer of the ring behind it.
type Started<'s> = (PromisedHandle<RingEnds, SendsFlowOf<'s>>, Consumer<Item>);

/// Starts the thread of a worker, which promises its flow. None if the thread is refused.
fn spawn<'s, E: 's, R: Threads + Wait + Sync, G: Gate>(
    pipeline: &Pipeline<'s, R, G>,
    scope: &'s Scope<'s, E>,
    stage_number: usize,
    sleepers: Sleepers<'s>,
    placed: Placed,
    consumer: Consumer<Item>,
    producer: Producer<Item>,
) -> Option<PromisedHandle<RingEnds, SendsFlowOf<'s>>>
    requires placed { IsPlaced pipeline.now.lanes placed }
    requires fresh { (received consumer ≡ []) × (sent producer ≡ []) }
    ensures { IfSome result (λ worker. (worker.promise.placed ≡ placed)
        × (worker.promise.lanes ≡ pipeline.now.lanes)
        × (worker.promise.words.now ≡ pipeline.now.words.now)
        × (worker.promise.consumer.value ≡ consumer) × (worker.promise.producer.value ≡ producer)) }
{
    let rt = pipeline.rt;
    let gate = pipeline.gate;
    let lanes = pipeline.lanes;
    let words = pipeline.words;
    let (own, before, behind) = (sleepers.own, sleepers.before, sleepers.behind);
    let promise = SendsFlowOf {
        placed,
        lanes,
        words,
        consumer: Snapshot::of(&consumer),
        producer: Snapshot::of(&producer),
    };
    let worker = scope.spawn_with(
        promise,
        move || -> RingEnds
            requires { IsPlaced lanes placed × (received consumer ≡ []) × (sent producer ≡ []) }
            ensures consumer { SameConsumer consumer result.consumer }
            ensures producer { SameProducer producer result.producer }
            ensures flow { SendsFlow (placed_reaction (draw_in lanes words.entry.now) placed)
                (received result.consumer) (sent result.producer) }
        {
            let sleepers = Sleepers::new(own, before, behind);
            work(
                rt,
                gate,
                stage_number,
                placed,
                lanes,
                words,
                &sleepers,
                consumer,
                producer,
            )
        },
    );
    worker.ok()
}

/// Makes the ring behind a toxic and starts its worker. If either is refused, the consumer is dropped.
fn start<'s, E: 's, R: Threads + Wait + Sync, G: Gate>(
    pipeline: &Pipeline<'s, R, G>,
    scope: &'s Scope<'s, E>,
    stage_number: usize,
    sleepers: Sleepers<'s>,
    placed: &Placed,
    consumer: Consumer<Item>,
) -> Result<Started<'s>, StageFault>
    requires placed { IsPlaced pipeline.now.lanes placed.now }
    requires fresh { received consumer ≡ [] }
    ensures { IfOk result (λ started. IsWorkerOf started.0.promise placed.now
        pipeline.now.lanes pipeline.now.words.now consumer started.1) }
{
    let Ok((producer, next)) = RingBuffer::new(pipeline.alloc, pipeline.cap) else {
        return Err(StageFault::OutOfMemory);
    };
    let started = spawn(
        pipeline,
        scope,
        stage_number,
        sleepers,
        *placed,
        consumer,
        producer,
    );
    let Some(worker) = started else {
        return Err(StageFault::SpawnRefused);
    };
    Ok((worker, next))
}

/// The stages of these toxics. Gives back the consumer of the ring before them, with what was delivered.
///
/// If a ring or a thread is refused nothing was sent yet. Only `Quiet` is sent then, on which each worker ends.
fn level<'s, E: 's, R: Threads + Wait + Sync, G: Gate>(
    pipeline: &Pipeline<'s, R, G>,
    scope: &'s Scope<'s, E>,
    toxics: &[Placed],
    stage_number: usize,
    first: &mut Producer<Item>,
    consumer: Consumer<Item>,
) -> Result<(Consumer<Item>, Outcome), StageFault>
    requires fresh { (sent first.old ≡ []) × (received consumer ≡ []) }
    requires toxics { All (IsPlaced pipeline.now.lanes) toxics.now }
    requires stages { stage_number + length toxics.now ≤ 32 }
    ensures first { SameProducer first.old first.new }
    ensures consumer { IfOk result (λ ended. SameConsumer consumer ended.0) }
    ensures sent { IfOk result
        (λ _. SendsAll (arrival_list pipeline.now.arrivals.now) (sent first.new)) }
    ensures delivered { IfOk result (λ ended. Delivers
        (map (placed_reaction (draw_in pipeline.now.lanes pipeline.now.words.now)) toxics.now)
        (received ended.0) (shown ended.1.slices (Some ended.1.ending))) }
    ensures ended { has_final (sent first.new) ≡ true }
    ensures refused { result ≡ Err SpawnRefused → toxics.now ≢ [] }
{
    let rt = pipeline.rt;
    let Some((toxic, later)) = toxics.split_first() else {
        let sleepers = pipeline.sleepers.ends(stage_number);
        return feed_and_drain(
            rt,
            pipeline.alloc,
            &sleepers,
            pipeline.arrivals,
            first,
            consumer,
        );
    };
    let sleepers = pipeline.sleepers.worker(stage_number, later.len());
    let started = start(pipeline, scope, stage_number, sleepers, toxic, consumer);
    let (worker, next) = match started {
        Ok(started) => started,
        Err(fault) => {
            push_waiting(
                rt,
                &pipeline.sleepers.ends(stage_number),
                first,
                Item::Quiet,
            );
            return Err(fault);
        }
    };
    let below = level(pipeline, scope, later, stage_number + 1, first, next);
    let RingEnds {
        consumer,
        mut producer,
    } = worker.join(rt);
    let (mut next, outcome) = below?;
    next.slots_beside(&mut producer);
    Ok((consumer, outcome))
}

/// What a chain delivers of these arrivals, on a link with these words, by a thread for each applied toxic over rings
/// of `cap` items, 1 to 1024. Worker k calls the gate with each item that it took, before it works on it.
///
/// Waits for its threads: all of them have ended when it returns.
pub fn run_stages<R: Threads + Wait + Sync, G: Gate>(
    rt: &R,
    alloc: Global,
    chain: &Chain,
    words: &Words,
    arrivals: &Arrivals,
    cap: usize,
    gate: &G,
) -> Result<Outcome, StageFault>
    requires some { 1 ≤ cap }
    requires most { cap ≤ 1024 }
    ensures flow { IfOk result
        (IsOutcomeOf (chain_flow chain.now words.now (arrival_list arrivals.now))) }
    ensures neighbours { IfOk result
        (λ outcome. AreNeighbours (arrival_list arrivals.now) 0 outcome.slices) }
    ensures network { IfOk result
        (IsNetworkAtRest cap chain.now words.now (arrival_list arrivals.now)) }
    ensures refused { result ≡ Err SpawnRefused → applied chain.now words.now ≢ [] }
{
    let circle = Circle::new();
    let sleepers = &circle;
    thread::scope(
        thread::scope_env(),
        rt,
        |scope| -> Result<Outcome, StageFault>
            requires { 1 ≤ cap }
            ensures flow { IfOk result
                (IsOutcomeOf
                (chain_flow chain.entry.now words.entry.now (arrival_list arrivals.entry.now))) }
            ensures neighbours { IfOk result
                (λ outcome. AreNeighbours (arrival_list arrivals.entry.now) 0 outcome.slices) }
            ensures network { IfOk result
                (IsNetworkAtRest cap chain.entry.now words.entry.now
                (arrival_list arrivals.entry.now)) }
            ensures refused { result ≡ Err SpawnRefused
                → applied chain.entry.now words.entry.now ≢ [] }
        {
            let Ok((mut first, consumer)) = RingBuffer::new(alloc, cap) else {
                return Err(StageFault::OutOfMemory);
            };
            let pipeline = Pipeline {
                rt,
                alloc,
                lanes: chain.lanes(),
                words,
                arrivals,
                cap,
                gate,
                sleepers,
            };
            let toxics = chain.applied(words);
            let (mut consumer, outcome) = level(
                &pipeline, scope, &toxics, 0, &mut first, consumer,
            )?;
            consumer.slots_beside(&mut first);
            Ok(outcome)
        },
    )
}
