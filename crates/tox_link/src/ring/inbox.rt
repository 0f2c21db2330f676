//! The writer's end of the ring.
ghost use Rattle.std.specs.Prelude.{◌≡◌, [], ◌∷◌, ◌++◌, IfOk, OnErr};
ghost use Rattle.rtrb.specs.Ring.{received, sent, IsPair, SameConsumer};
ghost use Rattle.tox_link.specs.ring.Messages.{Allows};

use crate::ring::idle::Idle;
use crate::ring::message::{InOrder, Message, Receiver, Sender};
use crate::ring::parking::Parkers;
use rtrb::RingBuffer;
use std::alloc::{AllocError, Global};
use std::sync::{Arc, Wait};
use tox_time::{Gate, pause};

/// The most messages in the ring.
const RING_SIZE: usize = 64;

/// The writer's end of the ring.
#[derive(Drop)]
pub struct Inbox {
    pub receiver: Receiver,
    pub parkers: Arc<Parkers>,
    /// How many messages it gave.
    pub pops: u64,
    /// How often the writer's side yielded since the last message.
    pub yields: u32,
}

impl Inbox {
    /// Both ends of a ring. Nothing was sent.
    pub fn new(alloc: Global) -> Result<(Inbox, Sender), AllocError>
        ensures empty { IfOk result
            (λ made. (sent made.1 ≡ []) × (received made.0.receiver ≡ [])) }
        ensures pair { IfOk result (λ made. IsPair made.1 made.0.receiver) }
    {
        let (sender, receiver) = RingBuffer::<Message>::with_protocol::<Global, InOrder>(
            alloc, RING_SIZE,
        )?;
        let Ok(parkers) = Arc::new(alloc, Parkers::new()) else {
            return Err(AllocError);
        };
        let inbox = Inbox {
            receiver,
            parkers,
            pops: 0,
            yields: 0,
        };
        Ok((inbox, sender))
    }

    /// The next message, if one is there. Wakes the reader's thread and passes the gate.
    pub fn pop<G: Gate>(&mut self, gate: &G) -> Result<Message, Idle>
        ensures ring { SameConsumer self.old.receiver self.new.receiver }
        ensures some { IfOk result (λ message. (received self.new.receiver
            ≡ received self.old.receiver ++ message ∷ [])
            × Allows (received self.old.receiver) message) }
        ensures none { OnErr result (received self.new.receiver ≡ received self.old.receiver) }
    {
        let Ok(message) = self.receiver.pop() else {
            return Err(Idle::of_pop());
        };
        self.parkers.reader.unpark();
        gate.pass(1, self.pops);
        self.pops = self.pops.saturating_add(1);
        self.yields = 0;
        Ok(message)
    }

    /// One turn of a wait for the next message.
    pub fn wait<R: Wait>(&mut self, rt: &R, _idle: Idle)
        ensures { self.new.receiver ≡ self.old.receiver }
    {
        pause(rt, &self.parkers.writer, &mut self.yields);
    }
}
