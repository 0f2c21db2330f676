//! That what a link notes and reports is a log.
ghost use Rattle.std.specs.Prelude.{ℕ, ◌++◌, Bool, List, Option};
ghost use Rattle.tox_time.specs.declared.streams.ending.Ending.{Ending as OneEnding};
ghost use Rattle.tox_time.specs.declared.streams.item.Item.{Item as OneItem};
ghost use Rattle.tox_link.specs.declared.notes.LinkEvent.{LinkEvent as OneEvent};
ghost use Rattle.tox_link.specs.declared.ring.message.ReadEnd.{ReadEnd as OneEnd};
ghost use Rattle.tox_link.specs.log.Log.{SaysHeard};
ghost use Rattle.tox_link.specs.log.Logged.{IsCutOff};
ghost use Rattle.tox_link.specs.Reports.{ReportsAt};
ghost use Rattle.tox_log.specs.declared.last_line.BreakCause.{BreakCause as OneCause};
ghost use Rattle.tox_log.specs.declared.event_line.LogLine.{LogLine as OneLine};
ghost use Rattle.tox_log.specs.NotedLines.{AreNoted, broken_lines, ended_lines};

use tox_link::Clock;

/// A lemma as a function, with no runtime effect: the events and the report of a link by this clock, written as lines, are a
/// link's log, also where the source's end is reported as a reset, and so is each front of them.
///
/// Behind a header that can be written, [`judge_log`](crate::judge_log) finds no line of them bad or too deep and doesn't
/// call them unfaithful.
pub fn noted_lines_are_a_log<C: Clock>(_clock: &C)
    ensures ended { (means : List OneItem → List OneItem) (reset : Bool) (events : List OneEvent)
        (taken written reading : ℕ) (ending : OneEnding) (source : Option OneEnd)
        → ReportsAt means (C.reported _clock.now) events taken written ending source reading
        → SaysHeard events → AreNoted means (ended_lines reset events reading ending) }
    ensures broken { (means : List OneItem → List OneItem) (reset : Bool) (events : List OneEvent)
        (written : ℕ) (cause : OneCause) → IsCutOff means (C.reported _clock.now) written events
        → AreNoted means (broken_lines reset events cause written) }
    ensures front { (means : List OneItem → List OneItem) (front back : List OneLine)
        → AreNoted means (front ++ back) → AreNoted means front }
{}
