//! Readers and writers with contracts: what bytes are read from and written to.
ghost use Rattle.std.specs.Prelude.{◌≡◌, ℕ, ◌<◌, ◌≤◌, Bool, false, true, List, Option, length, take, IfOk, OnOk, OnErr};
ghost use Rattle.std.specs.Io.KnownBytes.{prepend_known, append_known, IsAtEnd};
ghost use Rattle.tox_time.specs.Ends.{takes_nothing};

use thiserror::Error;

/// A reader or writer answered a fault, and has failed for good.
#[derive(Clone, Copy, Debug, PartialEq, Eq, Error)]
#[error("an end has failed")]
pub struct EndFault;

/// A reader. It may be called only while it has not failed.
pub trait Source {
    /// Whether it has failed.
    ghost failed: { Self → Bool };

    /// The bytes still to be read, if the source tells them.
    ghost remaining: { Self → Option (List ℕ) };

    /// Reads the next bytes into the front of the buffer and returns how many. 0 for a nonempty buffer means the end.
    /// An `Err` reads no byte, and the source has failed for good.
    fn read(&mut self, buffer: &mut [u8]) -> Result<usize, EndFault>
        requires { failed self.old ≡ false }
        ensures count { IfOk result (λ n. n ≤ length buffer.new) }
        ensures bytes { IfOk result
            (λ n. remaining self.old ≡ prepend_known (take n buffer.new) (remaining self.new)) }
        ensures end { IfOk result
            (λ n. n ≡ 0 → 0 < length buffer.new → IsAtEnd (remaining self.new)) }
        ensures working { OnOk result (failed self.new ≡ false) }
        ensures fault { OnErr result (failed self.new ≡ true) }
        ensures kept { OnErr result (remaining self.new ≡ remaining self.old) };
}

/// A writer. It may be called only while it has not failed.
pub trait Sink {
    /// Whether it has failed.
    ghost failed: { Self → Bool };

    /// The bytes written so far, if the sink tells them.
    ghost written: { Self → Option (List ℕ) };

    /// Appends the first of these bytes and returns how many. A zero-byte write of a nonempty buffer fails the sink.
    /// An `Err` appends nothing, and the sink has failed for good.
    fn write(&mut self, bytes: &[u8]) -> Result<usize, EndFault>
        requires { failed self.old ≡ false }
        ensures count { IfOk result (λ n. n ≤ length bytes.now) }
        ensures bytes { IfOk result
            (λ n. written self.new ≡ append_known (written self.old) (take n bytes.now)) }
        ensures working { IfOk result (λ n. failed self.new ≡ takes_nothing n bytes.now) }
        ensures fault { OnErr result (failed self.new ≡ true) }
        ensures kept { OnErr result (written self.new ≡ written self.old) };
}
