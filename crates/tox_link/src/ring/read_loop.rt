//! Reading: sends what each read gave, and then how the reading ended.
ghost use Rattle.std.specs.Prelude.{◌≡◌, ◌≤◌, [], ◌∷◌, ◌++◌, length, false};
ghost use Rattle.rtrb.specs.Ring.{sent, SameProducer};
ghost use Rattle.tox_link.specs.ring.Messages.{Allows, ArePieces, ReadsFrom, HandsOn, EndsFor, bytes_of};
ghost use Rattle.tox_link.specs.declared.ring.message.ReadEnd.TheVariants.{ReadsUsedUp};

use crate::ring::message::{Message, ReadEnd, Sender};
use crate::ring::parking::Parkers;
use crate::ring::vectors::Vectors;
use crate::steps::read_size::READ_SIZE;
use rtrb::PushError;
use std::sync::Wait;
use tox_time::{Gate, MAX_BYTES, Source, pause};

/// What the reader's thread hands back.
#[derive(Drop)]
pub struct Reading<S> {
    pub reader: S,
    pub sender: Sender,
    pub end: ReadEnd,
}

/// Sends a message once the ring has a free slot, and wakes the writer's side.
fn send<R: Wait>(rt: &R, parkers: &Parkers, sender: &mut Sender, message: Message)
    requires { Allows (sent sender.old) message }
    ensures ring { SameProducer sender.old sender.new }
    ensures sent { sent sender.new ≡ sent sender.old ++ message ∷ [] }
{
    let mut message = message;
    let mut yields = 0;
    for _ in rt.forever() {
        match sender.push(message) {
            Ok(()) => {
                parkers.writer.unpark();
                return;
            }
            Err(PushError::Full(back)) => message = back,
        }
        pause(rt, &parkers.reader, &mut yields);
    }
    unreachable!()
}

/// Reads at most `reads` times, and sends what each read gave. Returns why it ended.
fn read_pieces<R: Wait, S: Source, G: Gate>(
    rt: &R,
    vectors: &mut Vectors,
    reader: &mut S,
    sender: &mut Sender,
    reads: u64,
    parkers: &Parkers,
    gate: &G,
) -> ReadEnd
    requires working { S.failed reader.old ≡ false }
    requires fresh { sent sender.old ≡ [] }
    ensures ring { SameProducer sender.old sender.new }
    ensures pieces { ArePieces (sent sender.new) }
    ensures bytes { HandsOn (S.remaining reader.old) (bytes_of (sent sender.new)) result
        (S.remaining reader.new) }
    ensures few { length (sent sender.new) ≤ reads }
    ensures spent { result ≡ ReadsUsedUp → length (sent sender.new) ≡ reads }
    ensures end { EndsFor result reads (length (bytes_of (sent sender.new)))
        (S.remaining reader.new) (S.failed reader.new) }
{
    let mut buffer = [0; READ_SIZE];
    let mut total = 0u64;
    for nth in 0..reads {
        let answer = reader.read(&mut buffer);
        gate.pass(0, nth);
        let Ok(count) = answer else {
            return ReadEnd::ReadFault;
        };
        if count == 0 {
            return ReadEnd::Eof;
        }
        if count as u64 > MAX_BYTES - total {
            return ReadEnd::TooManyBytes;
        }
        total += count as u64;
        let Ok(piece) = vectors.with_bytes(&buffer[..count]) else {
            return ReadEnd::OutOfMemory;
        };
        send(rt, parkers, sender, Message::Piece(piece));
    }
    ReadEnd::ReadsUsedUp
}

/// Reads, sends each piece and then the end, and hands the reader back.
pub fn read_all<R: Wait, S: Source, G: Gate>(
    rt: &R,
    vectors: Vectors,
    reader: S,
    sender: Sender,
    reads: u64,
    parkers: &Parkers,
    gate: &G,
) -> Reading<S>
    requires working { S.failed reader ≡ false }
    requires fresh { sent sender ≡ [] }
    ensures ring { SameProducer sender result.sender }
    ensures reads { ReadsFrom (S.remaining reader) reads (sent result.sender) result.end
        (S.remaining result.reader) (S.failed result.reader) }
{
    let mut vectors = vectors;
    let mut reader = reader;
    let mut sender = sender;
    let end = read_pieces(
        rt,
        &mut vectors,
        &mut reader,
        &mut sender,
        reads,
        parkers,
        gate,
    );
    send(rt, parkers, &mut sender, Message::End(end));
    Reading {
        reader,
        sender,
        end,
    }
}
