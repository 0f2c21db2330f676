//! One direction of a live link, from its reader's thread to its writer.
ghost use Rattle.std.specs.Prelude.{◌≡◌, ◌≢◌, ℕ, List, [], false, IfOk, IfErr, MatchResult, Err};
ghost use Rattle.rtrb.specs.Ring.{sent, IsPair};
ghost use Rattle.tox_compile.specs.Meaning.{Ops, means};
ghost use Rattle.tox_link.specs.declared.link_fault.LinkFault.TheVariants.{SpawnRefused};
ghost use Rattle.tox_link.specs.Meaning.{MeansPlan};
ghost use Rattle.tox_link.specs.Reports.{is_write_fault, written_before};
ghost use Rattle.tox_link.specs.carrying.Results.{BreaksAt, Carries, far_end, near_end};
ghost use Rattle.tox_link.specs.carrying.Side.{IsFresh};
ghost use Rattle.tox_link.specs.Sources.{read_end_of};

pub(crate) mod driving;
pub(crate) mod finishing;
pub(crate) mod taking;
pub(crate) mod writer_side;
pub(crate) mod writing;

use crate::carrying::driving::drive;
use crate::carrying::finishing::{drain, hang_up};
use crate::carrying::writer_side::WriterSide;
use crate::clock::Clock;
use crate::hangup::{Ends, Hangup};
use crate::link_fault::LinkFault;
use crate::link_report::{LinkReport, TimedReport};
use crate::notes::Notes;
use crate::ring::inbox::Inbox;
use crate::ring::message::Sender;
use crate::ring::reader_thread::{ReaderThread, join_reader, start_reader};
use crate::ring::vectors::Vectors;
use std::alloc::Global;
use std::sync::{Arc, Wait};
use std::thread::Threads;
use tox_compile::Plan;
use tox_time::{Gate, Sink, Source};
use tox_words::Words;

/// Starts the reader's thread of an inbox, with a share of the gate.
fn start<
    R: Threads + Wait + Copy + Send + 'static,
    S: Source + Send + Drop + 'static,
    G: Gate + Send + Drop + 'static,
>(
    rt: &R,
    inbox: &Inbox,
    vectors: Vectors,
    reader: S,
    sender: Sender,
    reads: u64,
    gate: &Arc<G>,
) -> Result<ReaderThread<S>, LinkFault>
    requires working { S.failed reader ≡ false }
    requires unsent { sent sender ≡ [] }
    ensures promise { IfOk result (λ thread. (thread.promise.reader.value ≡ reader)
        × (thread.promise.sender.value ≡ sender) × (thread.promise.reads ≡ reads)) }
    ensures err { IfErr result (λ fault. written_before fault ≡ 0) }
    ensures cause { IfErr result (λ fault. is_write_fault fault ≡ false) }
{
    let Ok(parkers) = inbox.parkers.clone() else {
        return Err(LinkFault::OutOfMemory(0));
    };
    let Ok(gate) = gate.clone() else {
        return Err(LinkFault::OutOfMemory(0));
    };
    let Some(thread) = start_reader(rt, vectors, reader, sender, reads, parkers, gate) else {
        return Err(LinkFault::SpawnRefused(0));
    };
    Ok(thread)
}

/// Carries one direction of a live link, until it ends.
///
/// A thread reads at most `reads` times and sends what it read through a ring. The writer's side stamps each
/// piece with the greatest reading of the clock so far, notes it, and does what a
/// [`LinkCore`](crate::LinkCore) of the plan says. Before each rest it writes no bytes, which asks the writer whether it
/// still works. It hangs up once, and then waits for the reader's thread.
///
/// # Errors
///
/// Out of memory, also for a note; the reader's thread is refused; a write fails or takes nothing. The reader is
/// then dropped. A fault before the thread started hangs up nothing.
pub fn carry<
    R: Threads + Wait + Copy + Send + 'static,
    S: Source + Send + Drop + 'static,
    W: Sink,
    H: Hangup,
    C: Clock,
    N: Notes,
    G: Gate + Send + Drop + 'static,
>(
    rt: &R,
    alloc: Global,
    reader: S,
    ends: &mut Ends<W, H>,
    clock: &C,
    plan: Plan,
    words: &Words,
    reads: u64,
    notes: &mut N,
    gate: &Arc<G>,
) -> Result<LinkReport<S>, LinkFault>
    requires reader { S.failed reader ≡ false }
    requires writer { W.failed ends.old.writer ≡ false }
    ensures carried { IfOk result (λ report. (reading : ℕ)
        × Carries (means plan words.now) (C.reported clock.now) reads
        (near_end (S.remaining reader) (S.failed reader))
        (near_end (S.remaining report.reader) (S.failed report.reader))
        (far_end (W.written ends.old.writer) (N.events notes.old) (H.calls ends.old.hangup))
        (far_end (W.written ends.new.writer) (N.events notes.new) (H.calls ends.new.hangup))
        report.taken report.written report.ending (read_end_of report.source) reading) }
    ensures broken { IfErr result (BreaksAt (means plan words.now) (C.reported clock.now)
        (near_end (S.remaining reader) (S.failed reader))
        (far_end (W.written ends.old.writer) (N.events notes.old) (H.calls ends.old.hangup))
        (far_end (W.written ends.new.writer) (N.events notes.new) (H.calls ends.new.hangup))) }
    ensures failed { MatchResult result (λ _. W.failed ends.new.writer ≡ false)
        (λ fault. W.failed ends.new.writer ≡ is_write_fault fault) }
    ensures unstarted { (n : ℕ) → result ≡ Err (SpawnRefused n)
        → (ends.new ≡ ends.old) × (notes.new ≡ notes.old) }
{
    match carry_timed(
        rt, alloc, reader, ends, clock, plan, words, reads, notes, gate,
    ) {
        Ok(timed) => Ok(timed.report),
        Err(fault) => Err(fault),
    }
}

/// Carries one direction as [`carry`] does, and tells the reading of the clock at which it ended.
///
/// # Errors
///
/// Those of [`carry`].
pub fn carry_timed<
    R: Threads + Wait + Copy + Send + 'static,
    S: Source + Send + Drop + 'static,
    W: Sink,
    H: Hangup,
    C: Clock,
    N: Notes,
    G: Gate + Send + Drop + 'static,
>(
    rt: &R,
    alloc: Global,
    reader: S,
    ends: &mut Ends<W, H>,
    clock: &C,
    plan: Plan,
    words: &Words,
    reads: u64,
    notes: &mut N,
    gate: &Arc<G>,
) -> Result<TimedReport<S>, LinkFault>
    requires reader { S.failed reader ≡ false }
    requires writer { W.failed ends.old.writer ≡ false }
    ensures carried { IfOk result (λ timed.
        Carries (means plan words.now) (C.reported clock.now) reads
        (near_end (S.remaining reader) (S.failed reader))
        (near_end (S.remaining timed.report.reader) (S.failed timed.report.reader))
        (far_end (W.written ends.old.writer) (N.events notes.old) (H.calls ends.old.hangup))
        (far_end (W.written ends.new.writer) (N.events notes.new) (H.calls ends.new.hangup))
        timed.report.taken timed.report.written timed.report.ending
        (read_end_of timed.report.source) timed.reading) }
    ensures broken { IfErr result (BreaksAt (means plan words.now) (C.reported clock.now)
        (near_end (S.remaining reader) (S.failed reader))
        (far_end (W.written ends.old.writer) (N.events notes.old) (H.calls ends.old.hangup))
        (far_end (W.written ends.new.writer) (N.events notes.new) (H.calls ends.new.hangup))) }
    ensures failed { MatchResult result (λ _. W.failed ends.new.writer ≡ false)
        (λ fault. W.failed ends.new.writer ≡ is_write_fault fault) }
    ensures unstarted { (n : ℕ) → result ≡ Err (SpawnRefused n)
        → (ends.new ≡ ends.old) × (notes.new ≡ notes.old) }
{
    let Ok((mut side, sender, vectors)) = WriterSide::new(alloc, plan, words) else {
        return Err(LinkFault::OutOfMemory(0));
    };
    match start(rt, &side.inbox, vectors, reader, sender, reads, gate) {
        Ok(thread) => carry_side(rt, &mut side, thread, ends, clock, notes, &**gate),
        Err(fault) => Err(fault),
    }
}

/// Carries what the reader's thread of a new side sends, until the link ends. Hangs up, and waits for the thread.
fn carry_side<R: Threads + Wait, S: Source + Drop, W: Sink, H: Hangup, C: Clock, N: Notes, G: Gate>(
    rt: &R,
    side: &mut WriterSide<'_>,
    thread: ReaderThread<S>,
    ends: &mut Ends<W, H>,
    clock: &C,
    notes: &mut N,
    gate: &G,
) -> Result<TimedReport<S>, LinkFault>
    requires writer { W.failed ends.old.writer ≡ false }
    requires fresh { IsFresh side.old }
    requires ring { IsPair thread.promise.sender.value side.old.inbox.receiver }
    ensures carried { (plan : Ops) (words : List ℕ) → MeansPlan plan words side.old.core
        → IfOk result (λ timed.
        Carries (means plan words) (C.reported clock.now) thread.promise.reads
        (near_end (S.remaining thread.promise.reader.value)
        (S.failed thread.promise.reader.value))
        (near_end (S.remaining timed.report.reader) (S.failed timed.report.reader))
        (far_end (W.written ends.old.writer) (N.events notes.old) (H.calls ends.old.hangup))
        (far_end (W.written ends.new.writer) (N.events notes.new) (H.calls ends.new.hangup))
        timed.report.taken timed.report.written timed.report.ending
        (read_end_of timed.report.source) timed.reading) }
    ensures broken { (plan : Ops) (words : List ℕ) → MeansPlan plan words side.old.core
        → IfErr result (BreaksAt (means plan words) (C.reported clock.now)
        (near_end (S.remaining thread.promise.reader.value)
        (S.failed thread.promise.reader.value))
        (far_end (W.written ends.old.writer) (N.events notes.old) (H.calls ends.old.hangup))
        (far_end (W.written ends.new.writer) (N.events notes.new) (H.calls ends.new.hangup))) }
    ensures failed { MatchResult result (λ _. W.failed ends.new.writer ≡ false)
        (λ fault. W.failed ends.new.writer ≡ is_write_fault fault) }
    ensures started { (n : ℕ) → result ≢ Err (SpawnRefused n) }
{
    let driven = drive(rt, side, clock, notes, &mut ends.writer, gate);
    hang_up(&mut ends.hangup, &driven, side);
    let ended = side.ended;
    drain(rt, &mut side.inbox, ended, gate);
    let (reader, _) = join_reader(rt, thread, &mut side.inbox.receiver);
    match driven {
        Ok(ending) => Ok(TimedReport {
            report: LinkReport {
                taken: side.window.stop(),
                written: side.written,
                ending,
                source: side.source,
                reader,
            },
            reading: side.core.latest(),
        }),
        Err(fault) => Err(fault),
    }
}
