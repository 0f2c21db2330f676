//! What the reader's thread sends through its ring, and in which order.
ghost use Rattle.tox_link.specs.ring.Messages.{Allows};

use rtrb::{Consumer, Producer, Protocol};
use std::alloc::Global;

/// Why a reading ended.
#[derive(Clone, Copy, Debug, PartialEq, Eq)]
pub enum ReadEnd {
    /// The reader had nothing left.
    Eof,
    /// A read failed.
    ReadFault,
    /// As many reads were made as were allowed.
    ReadsUsedUp,
    /// The reader gave more than 2^40 bytes.
    TooManyBytes,
    /// There was no memory for a piece.
    OutOfMemory,
}

/// What the reader's thread sends.
#[derive(Drop)]
pub enum Message {
    /// The bytes of one read.
    Piece(Vec<u8>),
    /// The reading ended.
    End(ReadEnd),
}

/// The order of messages: nonempty pieces of at most 16,384 bytes each and 2^40 in all, then one end.
#[derive(Clone, Copy)]
pub struct InOrder;

impl Protocol<Message> for InOrder {
    ghost allows = { Allows };
}

/// The reader's end of the ring.
pub type Sender = Producer<Message, Global, InOrder>;

/// The writer's end of the ring.
pub type Receiver = Consumer<Message, Global, InOrder>;
