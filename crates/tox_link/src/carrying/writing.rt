//! Writes of a link: the bytes of a slice, from the pieces that hold them.
ghost use Rattle.std.specs.Prelude.{◌≡◌, ◌+◌, ◌≤◌, length, take, false, true, IfErr, OnOk, OnErr};
ghost use Rattle.std.specs.Io.KnownBytes.{append_known};
ghost use Rattle.tox_time.specs.streams.Stream.{span_len};
ghost use Rattle.tox_link.specs.steps.Held.{HoldsSpan, WritesFromTo};

use crate::steps::front::front_of;
use tox_lend::Window;
use tox_time::{Sink, Slice, Span};

/// Writes all bytes, or returns how many were written before a fault.
/// A write that takes nothing is a fault.
fn write_all<W: Sink>(writer: &mut W, bytes: &[u8]) -> Result<(), usize>
    requires { W.failed writer.old ≡ false }
    ensures ok { OnOk result ((W.written writer.new
        ≡ append_known (W.written writer.old) bytes.now) × (W.failed writer.new ≡ false)) }
    ensures err { IfErr result (λ n. (n ≤ length bytes.now)
        × (W.written writer.new ≡ append_known (W.written writer.old) (take n bytes.now))) }
    ensures failed { OnErr result (W.failed writer.new ≡ true) }
{
    let mut done = 0;
    while done < bytes.len() {
        match writer.write(&bytes[done..]) {
            Ok(0) | Err(_) => return Err(done),
            Ok(count) => done += count,
        }
    }
    Ok(())
}

/// Writes the bytes of a slice, or returns how many of them were written before a fault.
pub(crate) fn write_slice<W: Sink>(
    writer: &mut W,
    window: &Window,
    slice: &Slice,
) -> Result<(), u64>
    requires working { W.failed writer.old ≡ false }
    requires held { HoldsSpan window.now slice.now.span }
    ensures ok { OnOk result (WritesFromTo window.now.held slice.now.span.start
        slice.now.span.stop (W.written writer.old) (W.written writer.new)) }
    ensures working { OnOk result (W.failed writer.new ≡ false) }
    ensures err { IfErr result (λ n. WritesFromTo window.now.held slice.now.span.start
        (slice.now.span.start + n) (W.written writer.old) (W.written writer.new)) }
    ensures few { IfErr result (λ n. n ≤ span_len slice.now.span) }
    ensures failed { OnErr result (W.failed writer.new ≡ true) }
{
    let stop = slice.span.stop;
    let mut start = slice.span.start;
    while start < stop {
        let left = Span { start, stop };
        let front = front_of(window, &left, slice.instant);
        match write_all(writer, front) {
            Ok(()) => start += front.len() as u64,
            Err(done) => return Err(start - slice.span.start + done as u64),
        }
    }
    Ok(())
}
