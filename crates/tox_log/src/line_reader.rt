//! The lines of a log, one at a time.
ghost use Rattle.std.specs.Prelude.{◌≡◌, ◌≤◌, ◌<◌, ◌++◌, ◌∷◌, [], List, ℕ, length, false, true, if◌then◌else◌, IfOk, IsFalse, IsTrue, OnOk, MatchOption};
ghost use Rattle.std.specs.Io.KnownBytes.{IsAtEnd};
ghost use Rattle.tox_log.specs.Numbers.{KeepsText};

use arrayvec::ArrayVec;
use memchr::memchr;
use std::alloc::{AllocError, Global};
use tox_time::{EndFault, Source};

/// How many bytes are asked for at once.
const BLOCK: usize = 65_536;

/// The most bytes of a line of the form, and more than any has.
const MAX_LINE: usize = 4_096;

/// The lines of a reader. Keeps a block of bytes and one line.
#[derive(Drop)]
pub(crate) struct LineReader {
    block: Vec<u8>,
    start: usize,
    stop: usize,
    line: ArrayVec<u8, MAX_LINE>,
    long: bool,
    ghost within: { (start ≤ stop) × (stop ≤ length block.items) × (0 < length block.items) },
}

impl LineReader {
    ghost use Rattle.tox_log.specs.Numbers.{Lacks};
    ghost use Rattle.tox_log.specs.Reading.{IsLineRead, TakesLine, TakesPart, TakesRest, to_take, waiting};

    pub(crate) fn new(alloc: Global) -> Result<LineReader, AllocError>
        ensures { IfOk result (λ lines. waiting lines ≡ []) }
    {
        Ok(LineReader {
            block: vec![in alloc; 0; BLOCK]?,
            start: 0,
            stop: 0,
            line: ArrayVec::new(),
            long: false,
        })
    }

    /// Goes to the next line that a line feed ends. False where there is none: what stands behind the last line feed is no line.
    pub(crate) fn advance<R: Source>(&mut self, reader: &mut R) -> Result<bool, EndFault>
        requires { R.failed reader.old ≡ false }
        ensures working { OnOk result (R.failed reader.new ≡ false) }
        ensures line { IfOk result (λ came. IsTrue came
            → TakesLine self.old self.new (R.remaining reader.old) (R.remaining reader.new)) }
        ensures end { IfOk result (λ came. IsFalse came
            → TakesRest self.old self.new (R.remaining reader.old) (R.remaining reader.new)) }
    {
        self.line.clear();
        self.long = false;
        'lines: for _ in 0..u64::MAX {
            if !self.fill(reader)? {
                return Ok(false);
            }
            if self.take() {
                return Ok(true);
            }
        }
        Err(EndFault)
    }

    /// The line, without its line feed. None if it is longer than any line of the form.
    pub(crate) fn line(&self) -> Option<&[u8]>
        ensures { MatchOption result (self.now.long ≡ true) (λ line. IsLineRead self.now line.now) }
    {
        if self.long {
            None
        } else {
            Some(self.line.as_slice())
        }
    }

    /// Reads the next block, if none of the bytes are left. False at the end.
    fn fill<R: Source>(&mut self, reader: &mut R) -> Result<bool, EndFault>
        requires { R.failed reader.old ≡ false }
        ensures working { OnOk result (R.failed reader.new ≡ false) }
        ensures given { OnOk result (to_take self.old (R.remaining reader.old)
            ≡ to_take self.new (R.remaining reader.new)) }
        ensures line { (self.new.line ≡ self.old.line) × (self.new.long ≡ self.old.long) }
        ensures end { IfOk result (λ more. IsFalse more
            → IsAtEnd (to_take self.new (R.remaining reader.new))) }
    {
        if self.start < self.stop {
            return Ok(true);
        }
        let count = reader.read(&mut self.block)?;
        self.start = 0;
        self.stop = count;
        Ok(count > 0)
    }

    /// Takes the bytes up to the next line feed onto the line, or the rest of the block. Whether a line feed came.
    fn take(&mut self) -> bool
        ensures { TakesPart self.old self.new result }
    {
        let waiting = &self.block[self.start..self.stop];
        match memchr(b'\n', waiting) {
            Some(place) => {
                add(&mut self.line, &mut self.long, &waiting[..place]);
                self.start += place + 1;
                true
            }
            None => {
                add(&mut self.line, &mut self.long, waiting);
                self.start = self.stop;
                false
            }
        }
    }
}

/// Adds a part to a line, if it fits.
fn add(line: &mut ArrayVec<u8, MAX_LINE>, long: &mut bool, part: &[u8])
    ensures { (text : List ℕ) → KeepsText line.old.items long.old text
        → KeepsText line.new.items long.new (text ++ part.now) }
{
    if line.try_extend_from_slice(part).is_err() {
        *long = true;
    }
}
