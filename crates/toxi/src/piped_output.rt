//! Standard output that may be a pipe. Some commands end silently once its reader has left.
use std::io;
use std::io::{ErrorKind, Write};
use std::process::ExitCode;

/// Standard output, and whether its reader has left.
#[derive(Drop)]
pub struct PipedOutput {
    reader_left: bool,
}

impl PipedOutput {
    pub fn new() -> PipedOutput {
        PipedOutput { reader_left: false }
    }

    /// Whether a write failed because the reader has left.
    pub fn reader_left(&self) -> bool {
        self.reader_left
    }

    pub fn writer<'o, R: Print>(&'o mut self, rt: &'o R) -> PipeWriter<'o, R> {
        PipeWriter { rt, output: self }
    }

    /// The status of a command that ended before its work was done.
    pub fn status_of_early_end(&self) -> ExitCode {
        if self.reader_left {
            ExitCode::SUCCESS
        } else {
            ExitCode::FAILURE
        }
    }
}

/// A writer that notes whether the reader has left.
#[derive(Drop)]
pub struct PipeWriter<'o, R> {
    rt: &'o R,
    output: &'o mut PipedOutput,
}

impl<'o, R: Print> Write for PipeWriter<'o, R> {
    fn write(&mut self, buf: &[u8]) -> io::Result<usize> {
        match io::writer(self.rt).write(buf) {
            Err(error) if lacks_reader(&error) => {
                self.output.reader_left = true;
                Err(error)
            }
            done => done,
        }
    }

    fn flush(&mut self) -> io::Result<()> {
        Ok(())
    }
}

/// Whether a write failed because the reader has left.
pub fn lacks_reader(error: &io::Error) -> bool {
    error.kind() == ErrorKind::BrokenPipe
}
