//! What a direction reports once it is driven no more.
ghost use Rattle.std.specs.Prelude.{◌≡◌, ℕ, List, Option, IfOk, IfErr, IfSome, MatchResult, length, take};
ghost use Rattle.tox_link.specs.direction.Driven.{IsAtEnd, History};
ghost use Rattle.tox_link.specs.direction.Follows.{IsHeld};
ghost use Rattle.tox_link.specs.log.Log.{SaysHeard};
ghost use Rattle.tox_link.specs.log.Logged.{IsCutOff};
ghost use Rattle.tox_link.specs.Reports.{ReportsAt, WritesFirst, written_before};
ghost use Rattle.tox_link.specs.ring.Messages.{HandsOn};
ghost use Rattle.tox_link.specs.Sources.{read_end_of};

use crate::clock::Clock;
use crate::direction::polled_link::PolledLink;
use crate::link_fault::LinkFault;
use crate::link_report::{LinkReport, TimedReport};
use tox_time::Ending;

/// What a direction reports that was driven until it ended, or broke off by a fault.
pub fn finish<C: Clock, S: Drop>(
    link: PolledLink,
    clock: &C,
    driven: Result<Ending, LinkFault>,
    reader: S,
) -> Result<TimedReport<S>, LinkFault>
    requires held { IsHeld link }
    requires driven { MatchResult driven (IsAtEnd (C.reported clock.now) link)
        (λ fault. written_before fault ≡ link.written) }
    ensures same { MatchResult driven
        (λ ending. IfOk result (λ timed. (timed.report.ending ≡ ending)
        × (timed.report.reader ≡ reader) × (timed.report.source ≡ link.source)))
        (λ fault. result ≡ Err fault) }
    ensures log { IfOk result (λ timed. (left : Option (List ℕ))
        (history : History (C.reported clock.now) link left)
        → ReportsAt history.means (C.reported clock.now) history.log
        timed.report.taken timed.report.written timed.report.ending
        (read_end_of timed.report.source) timed.reading) }
    ensures of_heard { IfOk result (λ _. (left : Option (List ℕ))
        (history : History (C.reported clock.now) link left) → SaysHeard history.log) }
    ensures bytes { IfOk result (λ timed. (left : Option (List ℕ))
        (history : History (C.reported clock.now) link left)
        → WritesFirst history.given history.before history.after
        (take timed.report.taken history.came) timed.report.written
        × (length (take timed.report.taken history.came) ≡ timed.report.taken)
        × IfSome (read_end_of timed.report.source) (λ end.
        HandsOn history.given (take timed.report.taken history.came) end left)) }
    ensures broken { IfErr result (λ fault. (left : Option (List ℕ))
        (history : History (C.reported clock.now) link left)
        → IsCutOff history.means (C.reported clock.now) (written_before fault) history.log
        × WritesFirst history.given history.before history.after
        history.came (written_before fault)) }
{
    match driven {
        Ok(ending) => Ok(TimedReport {
            report: LinkReport {
                taken: link.window.stop(),
                written: link.written,
                ending,
                source: link.source,
                reader,
            },
            reading: link.core.latest(),
        }),
        Err(fault) => Err(fault),
    }
}
