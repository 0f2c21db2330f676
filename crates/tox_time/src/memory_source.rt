//! A reader of bytes in memory that can fail at a set call.
ghost use Rattle.std.specs.Prelude.{◌≡◌, ◌<◌, ◌↔◌, [], ◌++◌, false, Some, min, length, take, drop, IsErr, IfOk, OnErr};
ghost use Rattle.std.specs.Io.KnownBytes.{prepend_known, IsAtEnd};
ghost use Rattle.tox_time.specs.MemoryEnds.{FailsNext, failed_source, source_after, source_without};

use crate::ends::{EndFault, Source};
use std::marker::Model;

/// A source over bytes in memory. It gives at most a set number of them a call, and fails at a set call.
#[derive(Debug, Drop)]
pub struct MemorySource {
    bytes: Vec<u8>,
    next: usize,
    most: usize,
    calls: u64,
    failing_call: Option<u64>,
    failed: bool,
}

impl Model for MemorySource {
    ghost use Rattle.std.specs.Prelude.{◌≤◌, ◌<◌, drop, length};
    ghost use Rattle.tox_time.specs.MemoryEnds.{SourceView};

    ghost Value = { SourceView };

    ghost view = { λ s. record {
      bytes = drop s.next s.bytes.items;
      most = s.most;
      calls = record { made = s.calls; failing = s.failing_call };
      failed = s.failed;
    } };

    ghost invariant = { λ s. (s.next ≤ length s.bytes.items) × (0 < s.most) };
}

impl MemorySource {
    /// Gives these bytes, at most `most` of them in a call, and fails at the call of this number, counted from 1.
    pub fn new(bytes: Vec<u8>, most: usize, failing_call: Option<u64>) -> Self
        requires { 0 < most }
        ensures { result ≡ record {
          bytes = bytes.items;
          most = most;
          calls = record { made = 0; failing = failing_call };
          failed = false;
        } }
    {
        MemorySource {
            bytes,
            next: 0,
            most,
            calls: 0,
            failing_call,
            failed: false,
        }
    }

    /// Gives the next bytes, as many as fit into a call, and returns how many.
    fn give(&mut self, buffer: &mut [u8]) -> usize
        ensures count { result ≡ min (min (length self.old.bytes) self.old.most) (length buffer.new) }
        ensures gave { self.new ≡ source_without self.old result }
        ensures buffer { buffer.new ≡ take result self.old.bytes ++ drop result buffer.old }
    {
        let left = self.bytes.len() - self.next;
        let count = left.min(self.most).min(buffer.len());
        buffer[..count].copy_from_slice(&self.bytes[self.next..self.next + count]);
        self.next += count;
        self.failed = false;
        count
    }
}

impl Source for MemorySource {
    ghost failed = { λ s. s.failed };

    ghost remaining = { λ s. Some s.bytes };

    fn read(&mut self, buffer: &mut [u8]) -> Result<usize, EndFault>
        ensures fails { IsErr result ↔ FailsNext self.old.calls }
        ensures count { IfOk result
            (λ n. n ≡ min (min (length self.old.bytes) self.old.most) (length buffer.new)) }
        ensures gave { IfOk result (λ n. self.new ≡ source_after self.old n) }
        ensures buffer { IfOk result
            (λ n. buffer.new ≡ take n self.old.bytes ++ drop n buffer.old) }
        ensures end { IfOk result (λ n. n ≡ 0 → 0 < length buffer.new → self.new.bytes ≡ []) }
        ensures fault { OnErr result
            ((self.new ≡ failed_source self.old) × (buffer.new ≡ buffer.old)) }
    {
        self.calls = self.calls.saturating_add(1);
        if self.failing_call == Some(self.calls) {
            self.failed = true;
            return Err(EndFault);
        }
        Ok(self.give(buffer))
    }
}
