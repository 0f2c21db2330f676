//! Lines that wait to be written, of at most so many bytes together.
ghost use Rattle.std.specs.Prelude.{◌≡◌, ◌↔◌, IfOk, IsTrue};
ghost use Rattle.tox_serve.specs.output.LineQueue.{has_room, no_lines, with_line};

use std::alloc::{AllocError, Global};
use std::marker::Model;
use std::mem;

/// The most bytes that wait.
const ROOM: usize = 65_536;

/// Whole lines that wait to be written, in order. A line that finds no room is dropped and counted, and so is each one after
/// it until the queue is taken: the dropped lines stand together behind those that wait.
#[derive(Drop)]
pub(crate) struct LineQueue {
    bytes: Vec<u8>,
    dropped: u64,
}

impl Model for LineQueue {
    ghost use Rattle.tox_serve.specs.output.LineQueue.{Lines};
    ghost use Rattle.tox_serve.specs.output.LineQueueInside.{lines_seen, KeepsQueue};

    ghost Value = { Lines };

    ghost view = { lines_seen };

    ghost invariant = { KeepsQueue };
}

impl LineQueue {
    /// An empty queue. Its room is reserved, so that no later call takes memory.
    pub(crate) fn new(alloc: Global) -> Result<LineQueue, AllocError>
        ensures { IfOk result (λ queue. queue ≡ no_lines) }
    {
        let bytes = Vec::with_capacity(alloc, ROOM)?;
        Ok(LineQueue { bytes, dropped: 0 })
    }

    /// Whether a line of so many bytes would be kept.
    pub(crate) fn has_room(&self, len: usize) -> bool
        ensures { result ≡ has_room self.now len }
    {
        self.dropped == 0 && len <= ROOM - self.bytes.len()
    }

    /// Whether nothing waits, and nothing was dropped.
    pub(crate) fn is_empty(&self) -> bool
        ensures { IsTrue result ↔ (self.now ≡ no_lines) }
    {
        self.bytes.is_empty() && self.dropped == 0
    }

    /// Adds a line behind the others, or drops it whole and counts it.
    pub(crate) fn push(&mut self, line: &[u8])
        ensures { self.new ≡ with_line self.old line.now }
    {
        if self.has_room(line.len()) && self.bytes.extend_from_slice(line).is_ok() {
            return;
        }
        self.dropped = self.dropped.saturating_add(1);
    }

    /// The bytes of the lines, one behind the other.
    pub(crate) fn bytes(&self) -> &[u8]
        ensures { result.now ≡ self.now.bytes }
    {
        &self.bytes
    }

    /// How many lines were dropped behind them.
    pub(crate) fn dropped(&self) -> u64
        ensures { result ≡ self.now.dropped }
    {
        self.dropped
    }

    /// Forgets the lines and the count.
    pub(crate) fn clear(&mut self)
        ensures { self.new ≡ no_lines }
    {
        self.bytes.clear();
        self.dropped = 0;
    }

    /// Moves the lines and the count into an empty queue.
    pub(crate) fn move_into(&mut self, empty: &mut LineQueue)
        requires { empty.old ≡ no_lines }
        ensures moved { empty.new ≡ self.old }
        ensures left { self.new ≡ no_lines }
    {
        mem::swap(self, empty);
    }
}
