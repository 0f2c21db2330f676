//! What may come next in a log.
ghost use Rattle.std.specs.Prelude.{◌≡◌, ◌≤◌, IsTrue};
ghost use Rattle.tox_link.specs.declared.notes.LinkEvent.TheVariants as OneEvent;
ghost use Rattle.tox_log.specs.Order.{ComesNext, GoesOnWith};
ghost use Rattle.tox_log.specs.declared.event_line.LogLine.TheVariants as OneLine;

use crate::event_line::LogLine;
use crate::last_line::LastLine;
use tox_link::LinkEvent;
use tox_time::{Micros, StreamPosition};

/// Whether a line may come next, behind what was heard, to which it is then added: readings never fall, positions stay within 2^40, and
/// neither a piece nor an end comes behind the source's end.
pub(crate) fn comes_next(heard: &mut StreamPosition, line: &LogLine) -> bool
    ensures goes { IsTrue result → GoesOnWith heard.old line.now heard.new }
    ensures takes { ComesNext heard.old line.now → IsTrue result }
{
    match line {
        LogLine::Event(LinkEvent::Piece(len, instant)) => hear_piece(heard, *len, instant),
        LogLine::Event(LinkEvent::SourceEnd(instant)) | LogLine::SourceReset(instant) => hear_end(
            heard, instant,
        ),
        LogLine::Event(LinkEvent::Wrote(_, reading)) | LogLine::Last(LastLine::Ended(reading, _)) =>
            read_at(heard, reading),
        LogLine::Last(LastLine::Broken(_, _)) => true,
    }
}

fn hear_piece(heard: &mut StreamPosition, len: u64, instant: &Micros) -> bool
    ensures goes { IsTrue result
        → GoesOnWith heard.old (OneLine.Event (OneEvent.Piece len instant.now)) heard.new }
    ensures takes { ComesNext heard.old (OneLine.Event (OneEvent.Piece len instant.now))
        → IsTrue result }
{
    if heard.with_piece(len, *instant).is_err() {
        return false;
    }
    heard.position += len;
    read_at(heard, instant)
}

fn hear_end(heard: &mut StreamPosition, instant: &Micros) -> bool
    ensures goes { IsTrue result
        → GoesOnWith heard.old (OneLine.Event (OneEvent.SourceEnd instant.now)) heard.new }
    ensures takes { ComesNext heard.old (OneLine.Event (OneEvent.SourceEnd instant.now))
        → IsTrue result }
{
    let Ok(next) = heard.with_end(*instant) else {
        return false;
    };
    *heard = next;
    true
}

/// The clock was read. Readings never fall.
fn read_at(heard: &mut StreamPosition, reading: &Micros) -> bool
    ensures goes { IsTrue result → (heard.old.latest ≤ reading.now)
        × (heard.new ≡ record heard.old { latest = reading.now }) }
    ensures takes { heard.old.latest ≤ reading.now → IsTrue result }
{
    if *reading < heard.latest {
        return false;
    }
    heard.latest = *reading;
    true
}
