//! A line behind the header: an event, or the last line.
ghost use Rattle.std.specs.Prelude.{◌≡◌, ◌≢◌, ◌++◌, ◌∷◌, codes, decimal, Some};
ghost use Rattle.tox_time.specs.Time.{IsInstant};
ghost use Rattle.tox_log.specs.declared.event_line.LogLine.{LogLine as OneLine};
ghost use Rattle.tox_log.specs.EventLines.{logged_line};
ghost use Rattle.tox_log.specs.Lines.{IsWritable, ReadsLine, ReadsSpan, line_words};
ghost use Rattle.tox_log.specs.Numbers.{Lacks};
ghost use Rattle.tox_log.specs.Reading.{is_last};

use crate::last_line::{BreakCause, LastLine};
use crate::numbers::{cut_at, instant_of, number_of};
use tox_link::{LinkEvent, READ_SIZE};
use tox_time::{Ending, MAX_BYTES, Micros, Slice, Span};

/// The most bytes of a piece: a link reads no more at once.
const MAX_PIECE: u64 = READ_SIZE as u64;

/// A line behind the header.
#[derive(Clone, Copy, Debug, PartialEq, Eq)]
pub enum LogLine {
    Event(LinkEvent),
    /// The source's end, reported as a reset by its peer.
    SourceReset(Micros),
    Last(LastLine),
}

impl LogLine {
    /// The line of an event. The source's end is reported as a reset, if it was one.
    pub(crate) fn of(event: &LinkEvent, source_reset: bool) -> LogLine
        ensures { result ≡ logged_line source_reset event.now }
    {
        match event {
            LinkEvent::SourceEnd(instant) if source_reset => LogLine::SourceReset(*instant),
            event => LogLine::Event(*event),
        }
    }

    /// Whether it is the last line of a log.
    pub(crate) fn is_last(&self) -> bool
        ensures { result ≡ is_last self.now }
    {
        match self {
            LogLine::Event(_) | LogLine::SourceReset(_) => false,
            LogLine::Last(_) => true,
        }
    }
}

/// What a line behind the header says, without its line feed. None if it isn't of the form.
pub fn read_line(text: &[u8]) -> Option<LogLine>
    ensures reads { ReadsLine result text.now }
    ensures back { (line : OneLine) → IsWritable line → text.now ≡ line_words line
        → result ≡ Some line }
{
    line_of(text)
}

fn line_of(text: &[u8]) -> Option<LogLine>
    ensures { ReadsLine result text.now }
{
    let (first, rest) = cut_at(text, b' ')?;
    if first == b"broken".as_slice() {
        return broken_of(rest);
    }
    let reading = instant_of(first)?;
    words_of(&reading, rest)
}

/// What the words behind a reading say.
fn words_of(reading: &Micros, words: &[u8]) -> Option<LogLine>
    requires { IsInstant reading.now }
    ensures { ReadsLine result (decimal reading.now ++ 32 ∷ words.now) }
{
    if words == b"end".as_slice() {
        return Some(LogLine::Event(LinkEvent::SourceEnd(*reading)));
    }
    if words == b"open".as_slice() {
        return Some(LogLine::Last(LastLine::Ended(*reading, Ending::StillOpen)));
    }
    let (word, rest) = cut_at(words, b' ')?;
    if word == b"wrote".as_slice() {
        return wrote_of(reading, rest);
    }
    if word == b"end".as_slice() {
        return end_of(reading, rest);
    }
    if word == b"piece".as_slice() {
        return piece_of(reading, rest);
    }
    ending_of(reading, word, rest)
}

/// The source's end, with the word that tells how it came.
fn end_of(reading: &Micros, how: &[u8]) -> Option<LogLine>
    requires { IsInstant reading.now }
    ensures { ReadsLine result (decimal reading.now ++ codes " end " ++ how.now) }
{
    if how == b"reset".as_slice() {
        return Some(LogLine::SourceReset(*reading));
    }
    None
}

/// The event of a piece of so many bytes.
fn piece_of(reading: &Micros, bytes: &[u8]) -> Option<LogLine>
    requires { IsInstant reading.now }
    ensures { ReadsLine result (decimal reading.now ++ codes " piece " ++ bytes.now) }
{
    let len = number_of(bytes, MAX_PIECE)?;
    Some(LogLine::Event(LinkEvent::Piece(len, *reading)))
}

/// The event of a slice: its range and its instant.
fn wrote_of(reading: &Micros, words: &[u8]) -> Option<LogLine>
    requires { IsInstant reading.now }
    ensures { ReadsLine result (decimal reading.now ++ codes " wrote " ++ words.now) }
{
    let (range, due) = cut_at(words, b' ')?;
    let span = span_of(range)?;
    let instant = instant_of(due)?;
    Some(LogLine::Event(LinkEvent::Wrote(Slice { span, instant }, *reading)))
}

/// A range of positions, `<start>..<stop>`.
fn span_of(text: &[u8]) -> Option<Span>
    ensures { ReadsSpan result text.now }
{
    let (start, rest) = cut_at(text, b'.')?;
    let stop = rest.strip_prefix(b".")?;
    let start = number_of(start, MAX_BYTES)?;
    let stop = number_of(stop, MAX_BYTES)?;
    Some(Span { start, stop })
}

/// A timed ending: its name and its instant.
fn ending_of(reading: &Micros, name: &[u8], instant: &[u8]) -> Option<LogLine>
    requires reading { IsInstant reading.now }
    requires one_word { Lacks 32 name.now }
    requires no_event { (name.now ≢ codes "piece") × (name.now ≢ codes "wrote")
        × (name.now ≢ codes "end") }
    ensures { ReadsLine result
        (decimal reading.now ++ codes " " ++ name.now ++ codes " " ++ instant.now) }
{
    let instant = instant_of(instant)?;
    if name == b"closed".as_slice() {
        return Some(LogLine::Last(LastLine::Ended(*reading, Ending::Closed(instant))));
    }
    if name == b"reset".as_slice() {
        return Some(LogLine::Last(LastLine::Ended(*reading, Ending::Reset(instant))));
    }
    None
}

/// Why a stream broke off, and after how many bytes.
fn broken_of(words: &[u8]) -> Option<LogLine>
    ensures { ReadsLine result (codes "broken " ++ words.now) }
{
    let (name, bytes) = cut_at(words, b' ')?;
    let cause = BreakCause::of_name(name)?;
    let bytes = number_of(bytes, MAX_BYTES)?;
    Some(LogLine::Last(LastLine::Broken(cause, bytes)))
}
