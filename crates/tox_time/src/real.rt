//! std's readers and writers as ends of a link.
ghost use Rattle.std.specs.Prelude.{◌≡◌, ◌≤◌, false, true, None, length, IfOk, OnOk, OnErr};
ghost use Rattle.std.specs.Io.KnownBytes.{ReadConsumes, WriteAppends};
ghost use Rattle.tox_time.specs.Ends.{takes_nothing};

use crate::ends::{EndFault, Sink, Source};
use std::io::{Read, Write};

/// A reader or writer of std. Keeps whether it has failed. As an end it tells no bytes; its clause `inner` passes on what
/// the reader or writer in it tells.
#[derive(Debug, Drop)]
pub struct Real<E> {
    inner: E,
    failed: bool,
}

impl<E> Real<E> {
    /// The end has not failed yet.
    pub fn new(inner: E) -> Self
        ensures working { result.failed ≡ false }
        ensures inner { result.inner ≡ inner }
    {
        Real {
            inner,
            failed: false,
        }
    }
}

impl<R: Read> Source for Real<R> {
    ghost failed = { λ s. s.failed };

    ghost remaining = { λ _. None };

    // If the reader tells its own bytes, these are passed on as they are.
    fn read(&mut self, buffer: &mut [u8]) -> Result<usize, EndFault>
        ensures count { IfOk result (λ n. n ≤ length buffer.new) }
        ensures inner { ReadConsumes (R.remaining self.old.inner)
            (R.remaining self.new.inner) result buffer.new }
        ensures working { OnOk result (self.new.failed ≡ self.old.failed) }
        ensures fault { OnErr result (self.new.failed ≡ true) }
    {
        match self.inner.read(buffer) {
            Ok(count) => Ok(count),
            Err(_) => {
                self.failed = true;
                Err(EndFault)
            }
        }
    }
}

impl<W: Write> Sink for Real<W> {
    ghost failed = { λ s. s.failed };

    ghost written = { λ _. None };

    // The writer takes the bytes as they are.
    fn write(&mut self, bytes: &[u8]) -> Result<usize, EndFault>
        ensures count { IfOk result (λ n. n ≤ length bytes.now) }
        ensures inner { WriteAppends (W.contents self.old.inner)
            (W.contents self.new.inner) result bytes.now }
        ensures working { IfOk result (λ n. self.new.failed ≡ takes_nothing n bytes.now) }
        ensures fault { OnErr result (self.new.failed ≡ true) }
    {
        match self.inner.write(bytes) {
            Ok(count) => {
                self.failed = count == 0 && !bytes.is_empty();
                Ok(count)
            }
            Err(_) => {
                self.failed = true;
                Err(EndFault)
            }
        }
    }
}
