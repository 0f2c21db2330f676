//! Readers and writers that don't wait.
ghost use Rattle.std.specs.Prelude.{◌≡◌, ℕ, ◌<◌, ◌≤◌, Bool, false, true, List, Option, length, take, IfOk, OnOk, OnErr, IfSome, IfNone, MatchOption};
ghost use Rattle.std.specs.Io.KnownBytes.{prepend_known, append_known, IsAtEnd};
ghost use Rattle.std.specs.Io.Slices.{io_slices_bytes};
ghost use Rattle.tox_time.specs.Ends.{takes_nothing};

use std::io::IoSlice;
use tox_time::{EndFault, Micros};

/// A reader that answers None where it would wait. It may be called only while it has not failed.
pub trait PollSource {
    /// Whether it has failed.
    ghost failed: { Self → Bool };

    /// The bytes still to be read, if the source tells them.
    ghost remaining: { Self → Option (List ℕ) };

    /// Whether it has answered that it would wait.
    ghost waits: { Self → Bool };

    /// Reads the next bytes into the front of the buffer and returns how many. 0 for a nonempty buffer means the end.
    /// None reads no byte. An `Err` reads no byte, and the source has failed for good.
    fn poll_read(&mut self, buffer: &mut [u8]) -> Result<Option<usize>, EndFault>
        requires { failed self.old ≡ false }
        ensures count { IfOk result (λ got. IfSome got (λ n. n ≤ length buffer.new)) }
        ensures bytes { IfOk result (λ got. MatchOption got
            (remaining self.new ≡ remaining self.old)
            (λ n. remaining self.old ≡ prepend_known (take n buffer.new) (remaining self.new))) }
        ensures end { IfOk result (λ got. IfSome got
            (λ n. n ≡ 0 → 0 < length buffer.new → IsAtEnd (remaining self.new))) }
        ensures waits { IfOk result (λ got. IfNone got (waits self.new ≡ true)) }
        ensures working { OnOk result (failed self.new ≡ false) }
        ensures fault { OnErr result ((failed self.new ≡ true)
            × (remaining self.new ≡ remaining self.old)) };
}

/// A writer that answers None where it would wait. It may be called only while it has not failed.
pub trait PollSink {
    /// Whether it has failed.
    ghost failed: { Self → Bool };

    /// The bytes written so far, if the sink tells them.
    ghost written: { Self → Option (List ℕ) };

    /// Whether it has answered that it would wait.
    ghost waits: { Self → Bool };

    /// The instant from which on it fails rather than wait, if there is one.
    ghost due: { Self → Option ℕ };

    /// Appends the first bytes of these buffers and returns how many. None appends nothing. A zero-byte write of a nonempty buffer
    /// fails the sink. An `Err` appends nothing, and the sink has failed for good.
    fn poll_write(&mut self, buffers: &[IoSlice<'_>]) -> Result<Option<usize>, EndFault>
        requires { failed self.old ≡ false }
        ensures count { IfOk result (λ took. IfSome took
            (λ n. n ≤ length (io_slices_bytes buffers.now))) }
        ensures bytes { IfOk result (λ took. MatchOption took
            (written self.new ≡ written self.old)
            (λ n. written self.new
            ≡ append_known (written self.old) (take n (io_slices_bytes buffers.now)))) }
        ensures working { IfOk result (λ took. MatchOption took
            (failed self.new ≡ false)
            (λ n. failed self.new ≡ takes_nothing n (io_slices_bytes buffers.now))) }
        ensures waits { IfOk result (λ took. IfNone took (waits self.new ≡ true)) }
        ensures fault { OnErr result (failed self.new ≡ true) }
        ensures kept { OnErr result (written self.new ≡ written self.old) };

    /// The instant from which on it fails rather than wait, if there is one.
    fn due(&self) -> Option<Micros>
        ensures { result ≡ due self.now };
}
