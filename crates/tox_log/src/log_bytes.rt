//! Bytes of a log that wait for its file.
ghost use Rattle.std.specs.Prelude.{◌≡◌, [], Some, false, take};

use std::alloc::Global;
use std::marker::Model;
use tox_time::{EndFault, Sink};

/// Bytes of a log that wait for its file. A refused growth fails it, and leaves the bytes as they were.
#[derive(Debug, Drop)]
pub struct LogBytes {
    bytes: Vec<u8>,
    failed: bool,
}

impl Model for LogBytes {
    ghost use Rattle.std.specs.Prelude.{List, ℕ, Bool};

    ghost Value = { List ℕ × Bool };

    ghost view = { λ log. (log.bytes.items, log.failed) };
}

impl LogBytes {
    /// No bytes. Takes no memory.
    pub fn new(alloc: Global) -> LogBytes
        ensures { result ≡ ([], false) }
    {
        LogBytes {
            bytes: Vec::new(alloc),
            failed: false,
        }
    }

    /// The bytes that wait.
    pub fn bytes(&self) -> &[u8]
        ensures { result.now ≡ self.now.0 }
    {
        &self.bytes
    }

    /// Whether it has failed.
    pub fn has_failed(&self) -> bool
        ensures { result ≡ self.now.1 }
    {
        self.failed
    }

    /// Drops what stands behind the first bytes: a line that isn't whole, or has no room. More may be written then.
    pub fn cut(&mut self, len: usize)
        ensures { self.new ≡ (take len self.old.0, false) }
    {
        self.bytes.truncate(len);
        self.failed = false;
    }
}

impl Sink for LogBytes {
    ghost failed = { λ log. log.1 };

    ghost written = { λ log. Some log.0 };

    fn write(&mut self, bytes: &[u8]) -> Result<usize, EndFault> {
        if self.bytes.extend_from_slice(bytes).is_err() {
            self.failed = true;
            return Err(EndFault);
        }
        Ok(bytes.len())
    }
}
