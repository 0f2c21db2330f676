//! Ends of a driven direction in tests: they often answer that they would wait.
ghost use Rattle.std.specs.Prelude.{◌≡◌, Some, None, [], length, take};
ghost use Rattle.std.specs.Io.Slices.{io_slices_bytes};

use rand_pcg::Lcg64Xsh32;
use std::io::IoSlice;
use tests_support::below;
use tox_link::{PollSink, PollSource};
use tox_time::{EndFault, Micros, Sink, Source};

/// An end that would wait at one call in three, as a generator draws it.
#[derive(Drop)]
pub struct BusyEnd<E> {
    pub end: E,
    pub generator: Lcg64Xsh32,
    pub waits: bool,
}

impl<E> BusyEnd<E> {
    pub fn new(end: E, seed: u64) -> BusyEnd<E>
        ensures { result.end ≡ end }
    {
        BusyEnd {
            end,
            generator: Lcg64Xsh32::new(seed, 2),
            waits: false,
        }
    }
}

impl<S: Source> PollSource for BusyEnd<S> {
    ghost failed = { λ s. S.failed s.end };

    ghost remaining = { λ s. S.remaining s.end };

    ghost waits = { λ s. s.waits };

    fn poll_read(&mut self, buffer: &mut [u8]) -> Result<Option<usize>, EndFault> {
        self.waits = below(&mut self.generator, 3) == 0;
        if self.waits {
            return Ok(None);
        }
        match self.end.read(buffer) {
            Ok(count) => Ok(Some(count)),
            Err(fault) => Err(fault),
        }
    }
}

impl<W: Sink> PollSink for BusyEnd<W> {
    ghost failed = { λ s. W.failed s.end };

    ghost written = { λ s. W.written s.end };

    ghost waits = { λ s. s.waits };

    ghost due = { λ _. None };

    fn poll_write(&mut self, buffers: &[IoSlice<'_>]) -> Result<Option<usize>, EndFault> {
        self.waits = below(&mut self.generator, 3) == 0;
        if self.waits {
            return Ok(None);
        }
        match self.end.write(front_of(buffers)) {
            Ok(count) => Ok(Some(count)),
            Err(fault) => Err(fault),
        }
    }

    fn due(&self) -> Option<Micros> {
        None
    }
}

/// The first buffer that has bytes.
pub fn front_of<'a>(buffers: &[IoSlice<'a>]) -> &'a [u8]
    ensures front { result.now ≡ take (length result.now) (io_slices_bytes buffers.now) }
    ensures none { result.now ≡ [] → io_slices_bytes buffers.now ≡ [] }
{
    for buffer in buffers {
        let bytes = buffer.as_slice();
        if !bytes.is_empty() {
            return bytes;
        }
    }
    &[]
}
