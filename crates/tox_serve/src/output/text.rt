//! The text of one line, made before it is sent.
ghost use Rattle.std.specs.Prelude.{◌≡◌, ◌≤◌, ◌<◌, Some, [], ◌++◌, true, false, length, nat_lt, IfNone, IfSome, IsSome, MatchOption};
ghost use Rattle.tox_text.specs.JsonLine.{object_line};
ghost use Rattle.tox_text.specs.Parts.{text_of};

use arrayvec::ArrayVec;
use tox_text::{JsonField, Part, write_object, write_parts};
use tox_time::{EndFault, Sink};

/// The longest line, in bytes. The longest is an object of a stream of a link with 32 toxics: the proxy's name may take 1,530 of
/// them, and the names of the toxics 4,192.
const MAX_LINE: usize = 6_144;

/// Room for the longest line and a byte more: a text that fills it is too long.
const ROOM: usize = MAX_LINE + 1;

/// The text of one line. It takes no memory.
#[derive(Drop)]
pub(crate) struct LineText {
    bytes: ArrayVec<u8, ROOM>,
    failed: bool,
    ghost full: { failed ≡ true → length bytes.items ≡ 6145 },
}

impl LineText {
    /// The text of these parts. None if it is too long; no line is.
    pub(crate) fn of(parts: &[Part<'_>]) -> Option<LineText>
        ensures line { MatchOption result (6144 < length (text_of parts.now))
            (λ line. line.bytes.items ≡ text_of parts.now) }
        ensures working { IfSome result (λ line. line.failed ≡ false) }
    {
        let mut line = LineText::new();
        write_parts(&mut line, parts).ok()?;
        if line.is_too_long() {
            return None;
        }
        Some(line)
    }

    /// The object about an event with these fields. None if it is too long; no line is.
    pub(crate) fn of_object(event: &str, fields: &[JsonField<'_>]) -> Option<LineText>
        ensures { MatchOption result (6144 < length (object_line event.now fields.now))
            (λ line. line.bytes.items ≡ object_line event.now fields.now) }
    {
        let mut line = LineText::new();
        let written = write_object(&mut line, event, fields);
        if written.is_err() {
            return None;
        }
        if line.is_too_long() {
            return None;
        }
        Some(line)
    }

    /// Adds parts behind the others. None if the text is then too long; no line is.
    pub(crate) fn add(&mut self, parts: &[Part<'_>]) -> Option<()>
        requires { self.old.failed ≡ false }
        ensures text { IsSome result
            → self.new.bytes.items ≡ self.old.bytes.items ++ text_of parts.now }
        ensures working { IsSome result → self.new.failed ≡ false }
        ensures long { IfNone result (6144 < length (self.old.bytes.items ++ text_of parts.now)) }
    {
        write_parts(self, parts).ok()?;
        if self.is_too_long() {
            return None;
        }
        Some(())
    }

    /// Whether it is longer than the longest line.
    fn is_too_long(&self) -> bool
        ensures { result ≡ nat_lt 6144 (length self.now.bytes.items) }
    {
        self.bytes.len() > MAX_LINE
    }

    /// An empty text.
    fn new() -> LineText
        ensures empty { result.bytes.items ≡ [] }
        ensures working { result.failed ≡ false }
    {
        LineText {
            bytes: ArrayVec::new(),
            failed: false,
        }
    }

    pub(crate) fn as_slice(&self) -> &[u8]
        ensures { result.now ≡ self.now.bytes.items }
    {
        &self.bytes
    }
}

impl Sink for LineText {
    ghost failed = { λ text. text.failed };

    ghost written = { λ text. Some text.bytes.items };

    fn write(&mut self, bytes: &[u8]) -> Result<usize, EndFault> {
        let count = bytes.len().min(self.bytes.remaining_capacity());
        if count == 0 && !bytes.is_empty() {
            self.failed = true;
            return Err(EndFault);
        }
        self.bytes.try_extend_from_slice(&bytes[..count]).unwrap();
        Ok(count)
    }
}
