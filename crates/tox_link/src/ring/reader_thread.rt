//! The reader's thread: what it promises, its start and its join.
ghost use Rattle.std.specs.Prelude.{◌≡◌, List, [], ◌++◌, false, IfSome};
ghost use Rattle.rtrb.specs.Ring.{sent, received, SameProducer, IsPair};
ghost use Rattle.tox_link.specs.ring.Messages.{ReadsFrom};
ghost use Rattle.tox_link.specs.declared.ring.message.Message.{Message as OneMessage};

use crate::ring::message::{ReadEnd, Receiver, Sender};
use crate::ring::parking::Parkers;
use crate::ring::read_loop::{Reading, read_all};
use crate::ring::vectors::Vectors;
use std::snapshot::Snapshot;
use std::sync::{Arc, Wait};
use std::thread;
use std::thread::{Promise, PromisedHandle, Threads};
use tox_time::{Gate, Source};

/// The thread's promise: this reader was read, and these messages were sent.
#[derive(Drop)]
pub struct ReadingOf<S> {
    pub reader: Snapshot<S>,
    pub sender: Snapshot<Sender>,
    pub reads: u64,
}

impl<S: Source> Promise<Reading<S>> for ReadingOf<S> {
    ghost kept_by = { λ promise reading. SameProducer promise.sender.value reading.sender
        × ReadsFrom (S.remaining promise.reader.value) promise.reads (sent reading.sender)
        reading.end (S.remaining reading.reader) (S.failed reading.reader) };
}

/// The reader's thread.
pub type ReaderThread<S> = PromisedHandle<Reading<S>, ReadingOf<S>>;

/// Starts the reader's thread. None where no thread can be had.
pub fn start_reader<
    R: Threads + Wait + Copy + Send + 'static,
    S: Source + Send + Drop + 'static,
    G: Gate + Send + Drop + 'static,
>(
    rt: &R,
    vectors: Vectors,
    reader: S,
    sender: Sender,
    reads: u64,
    parkers: Arc<Parkers>,
    gate: Arc<G>,
) -> Option<ReaderThread<S>>
    requires working { S.failed reader ≡ false }
    requires fresh { sent sender ≡ [] }
    ensures { IfSome result (λ thread. (thread.promise.reader.value ≡ reader)
        × (thread.promise.sender.value ≡ sender) × (thread.promise.reads ≡ reads)) }
{
    let promise = ReadingOf {
        reader: Snapshot::of(&reader),
        sender: Snapshot::of(&sender),
        reads,
    };
    let rt_there = *rt;
    thread::spawn_with(
        rt,
        promise,
        move || -> Reading<S>
            requires { (S.failed reader ≡ false) × (sent sender ≡ []) }
            ensures { SameProducer sender result.sender
                × ReadsFrom (S.remaining reader) reads (sent result.sender) result.end
                (S.remaining result.reader) (S.failed result.reader) }
        { read_all(&rt_there, vectors, reader, sender, reads, &parkers, &*gate) },
    )
    .ok()
}

/// Waits for the end of the reading. What was received is a prefix of what was sent.
pub fn join_reader<R: Threads, S: Source + Drop>(
    rt: &R,
    thread: ReaderThread<S>,
    receiver: &mut Receiver,
) -> (S, ReadEnd)
    requires pair { IsPair thread.promise.sender.value receiver.old }
    ensures received { received receiver.new ≡ received receiver.old }
    ensures sent { (left : List OneMessage)
        × ReadsFrom (S.remaining thread.promise.reader.value) thread.promise.reads
        (received receiver.new ++ left) result.1 (S.remaining result.0) (S.failed result.0) }
{
    let Reading {
        reader,
        mut sender,
        end,
    } = thread.join(rt);
    receiver.slots_beside(&mut sender);
    (reader, end)
}
