//! Standard input, whose bytes are kept for an explanation.
use crate::explaining::Explaining;
use std::alloc::Global;
use std::io;
use std::io::Read;
use tox_explain::NamedText;

/// What was read of standard input, if a fault is explained.
#[derive(Drop)]
pub struct KeptInput {
    is_kept: bool,
    bytes: Vec<u8>,
}

impl KeptInput {
    pub fn new(alloc: Global, explaining: Explaining) -> KeptInput {
        KeptInput {
            is_kept: explaining.needs_inputs(),
            bytes: Vec::new(alloc),
        }
    }

    /// A reader whose bytes are kept.
    pub fn reader<I: Read>(&mut self, input: I) -> KeepingReader<'_, I> {
        KeepingReader { input, kept: self }
    }

    /// What was read. None if it isn't kept.
    pub fn text(&self) -> Option<NamedText<'_>> {
        if self.is_kept {
            Some(NamedText {
                name: "standard input",
                bytes: &self.bytes,
            })
        } else {
            None
        }
    }

    /// Keeps more bytes. Without memory for them nothing is kept any more.
    fn keep(&mut self, bytes: &[u8]) {
        if self.is_kept && self.bytes.extend_from_slice(bytes).is_err() {
            self.is_kept = false;
        }
    }
}

/// A reader that keeps what it reads.
#[derive(Drop)]
pub struct KeepingReader<'k, I> {
    input: I,
    kept: &'k mut KeptInput,
}

impl<'k, I: Read> Read for KeepingReader<'k, I> {
    fn read(&mut self, buf: &mut [u8]) -> io::Result<usize> {
        let count = self.input.read(buf)?;
        self.kept.keep(&buf[..count]);
        Ok(count)
    }
}
