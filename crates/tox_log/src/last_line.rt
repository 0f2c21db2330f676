//! The last line of a log: how the stream ended, or why it broke off.
ghost use Rattle.std.specs.Prelude.{◌≡◌, ◌≢◌, MatchOption};
ghost use Rattle.tox_log.specs.declared.last_line.BreakCause.{BreakCause as OneCause};
ghost use Rattle.tox_text.specs.Printing.{IsWorking, Prints};
ghost use Rattle.tox_log.specs.LastText.{cause_name, last_line};

use tox_text::Part::{Number, Word};
use tox_text::SizedPrinter;
use tox_time::{EndFault, Ending, Micros, Sink};

/// Why a stream broke off.
#[derive(Clone, Copy, Debug, PartialEq, Eq)]
pub enum BreakCause {
    /// A write failed, or took nothing.
    Write,
    /// Memory was refused.
    Memory,
    /// A thread was refused.
    Thread,
    /// The upstream wasn't reached.
    Upstream,
    /// The program was told to stop.
    Stopped,
}

impl BreakCause {
    const ALL: [BreakCause; 5] = [
        BreakCause::Write,
        BreakCause::Memory,
        BreakCause::Thread,
        BreakCause::Upstream,
        BreakCause::Stopped,
    ];

    /// The name of the cause.
    pub fn name(self) -> &'static str
        ensures { result.now ≡ cause_name self }
    {
        match self {
            BreakCause::Write => "write",
            BreakCause::Memory => "memory",
            BreakCause::Thread => "thread",
            BreakCause::Upstream => "upstream",
            BreakCause::Stopped => "stopped",
        }
    }

    /// The cause of this name.
    pub(crate) fn of_name(name: &[u8]) -> Option<BreakCause>
        ensures { MatchOption result ((cause : OneCause) → name.now ≢ cause_name cause)
            (λ cause. name.now ≡ cause_name cause) }
    {
        BreakCause::ALL
            .iter()
            .copied()
            .find(|cause| cause.name().as_bytes() == name)
    }
}

/// The last line of a log.
#[derive(Clone, Copy, Debug, PartialEq, Eq)]
pub enum LastLine {
    /// At this reading of the clock the stream ended so.
    Ended(Micros, Ending),
    /// The stream broke off after so many written bytes.
    Broken(BreakCause, u64),
}

/// Prints the last line: `<reading> open`, `<reading> closed <instant>`, `<reading> reset <instant>` or
/// `broken <cause> <bytes>`.
pub fn print_last<W: Sink, const ROOM: usize>(
    printer: &mut SizedPrinter<'_, W, ROOM>,
    last: &LastLine,
) -> Result<(), EndFault>
    requires { IsWorking W.Sink printer.old }
    ensures { Prints W.Sink result printer.old printer.new (last_line last.now) }
{
    match last {
        LastLine::Ended(reading, ending) => print_ended(printer, reading, ending),
        LastLine::Broken(cause, bytes) => {
            let parts = [
                Word("broken "),
                Word(cause.name()),
                Word(" "),
                Number(*bytes),
                Word("\n"),
            ];
            printer.print(&parts)
        }
    }
}

/// Prints a reading and an ending.
fn print_ended<W: Sink, const ROOM: usize>(
    printer: &mut SizedPrinter<'_, W, ROOM>,
    reading: &Micros,
    ending: &Ending,
) -> Result<(), EndFault>
    requires { IsWorking W.Sink printer.old }
    ensures { Prints W.Sink result printer.old printer.new (last_line (LastLine.Ended reading.now ending.now)) }
{
    let reading = Number(reading.get());
    match ending {
        Ending::StillOpen => printer.print(&[reading, Word(" open\n")]),
        Ending::Closed(instant) => {
            let parts = [reading, Word(" closed "), Number(instant.get()), Word("\n")];
            printer.print(&parts)
        }
        Ending::Reset(instant) => {
            let parts = [reading, Word(" reset "), Number(instant.get()), Word("\n")];
            printer.print(&parts)
        }
    }
}
