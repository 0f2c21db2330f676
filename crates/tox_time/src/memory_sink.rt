//! A writer into memory that can fail at a set call.
ghost use Rattle.std.specs.Prelude.{◌≡◌, ◌<◌, ◌↔◌, [], false, Some, min, length, IsErr, IfOk, OnErr};
ghost use Rattle.tox_time.specs.MemoryEnds.{FailsNext, failed_sink, sink_after, sink_with};

use crate::ends::{EndFault, Sink};
use std::alloc::{AllocError, Global};
use std::marker::Model;

/// A sink into memory. Its room is reserved when it is made. It takes at most a set number of bytes a call, none once it
/// is full, and fails at a set call.
#[derive(Debug, Drop)]
pub struct MemorySink {
    room: Vec<u8>,
    filled: usize,
    most: usize,
    calls: u64,
    failing_call: Option<u64>,
    failed: bool,
}

impl Model for MemorySink {
    ghost use Rattle.std.specs.Prelude.{◌≤◌, ◌<◌, ◌-◌, take, length};
    ghost use Rattle.tox_time.specs.MemoryEnds.{SinkView};

    ghost Value = { SinkView };

    ghost view = { λ s. record {
      bytes = take s.filled s.room.items;
      room = length s.room.items - s.filled;
      most = s.most;
      calls = record { made = s.calls; failing = s.failing_call };
      failed = s.failed;
    } };

    ghost invariant = { λ s. (s.filled ≤ length s.room.items) × (0 < s.most) };
}

impl MemorySink {
    /// Has room for `room` bytes, takes at most `most` in a call, and fails at the call of this number, counted from 1.
    pub fn new(
        alloc: Global,
        room: usize,
        most: usize,
        failing_call: Option<u64>,
    ) -> Result<Self, AllocError>
        requires { 0 < most }
        ensures { IfOk result (λ s. s ≡ record {
          bytes = [];
          room = room;
          most = most;
          calls = record { made = 0; failing = failing_call };
          failed = false;
        }) }
    {
        Ok(MemorySink {
            room: vec![in alloc; 0; room]?,
            filled: 0,
            most,
            calls: 0,
            failing_call,
            failed: false,
        })
    }

    /// The bytes that were written.
    pub fn bytes(&self) -> &[u8]
        ensures { result.now ≡ self.now.bytes }
    {
        &self.room[..self.filled]
    }

    /// Takes the first of these bytes, as many as fit into a call, and returns how many.
    fn take(&mut self, bytes: &[u8]) -> usize
        ensures count { result ≡ min (min self.old.room self.old.most) (length bytes.now) }
        ensures took { self.new ≡ sink_with self.old result bytes.now }
    {
        let free = self.room.len() - self.filled;
        let count = free.min(self.most).min(bytes.len());
        let end = self.filled + count;
        self.room[self.filled..end].copy_from_slice(&bytes[..count]);
        self.filled = end;
        self.failed = count == 0 && !bytes.is_empty();
        count
    }
}

impl Sink for MemorySink {
    ghost failed = { λ s. s.failed };

    ghost written = { λ s. Some s.bytes };

    fn write(&mut self, bytes: &[u8]) -> Result<usize, EndFault>
        ensures fails { IsErr result ↔ FailsNext self.old.calls }
        ensures count { IfOk result
            (λ n. n ≡ min (min self.old.room self.old.most) (length bytes.now)) }
        ensures took { IfOk result (λ n. self.new ≡ sink_after self.old n bytes.now) }
        ensures fault { OnErr result (self.new ≡ failed_sink self.old) }
    {
        self.calls = self.calls.saturating_add(1);
        if self.failing_call == Some(self.calls) {
            self.failed = true;
            return Err(EndFault);
        }
        Ok(self.take(bytes))
    }
}
