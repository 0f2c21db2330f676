//! The judge of a log: what the plan still has to say, beside what the log says.
ghost use Rattle.std.specs.Prelude.{◌≡◌, ℕ, ◌+◌, ◌-◌, ◌++◌, ◌≤◌, ◌<◌, ◌^◌, ◌↔◌, Bool, List, [], ◌∷◌, IfOk, OnErr, OnOk, true, false, Some, None, IsSome, IsTrue, replicate, slice_get};
ghost use Rattle.tox_time.specs.Time.{IsInstant};
ghost use Rattle.tox_time.specs.declared.streams.item.Item.{Item as OneItem};
ghost use Rattle.tox_compile.specs.Meaning.{means};
ghost use Rattle.tox_link.specs.declared.notes.LinkEvent.{LinkEvent as OneEvent};
ghost use Rattle.tox_link.specs.link_core.Core.{core_ending, kept_count, remaining_output};
ghost use Rattle.tox_time.specs.declared.streams.ending.Ending.{Ending as EndingType};
ghost use Rattle.tox_time.specs.declared.streams.ending.Ending.TheVariants as OneEnding;
ghost use Rattle.tox_time.specs.streams.Table.{final_of};
ghost use Rattle.tox_link.specs.log.Log.{waiting_pieces};
ghost use Rattle.tox_link.specs.log.Logged.{IsReached};
ghost use Rattle.tox_link.specs.Reports.{ReportsAt};
ghost use Rattle.std.specs.List.{list_any};
ghost use Rattle.tox_plan.specs.Unended.{leaves_open};
ghost use Rattle.tox_log.specs.declared.judge.EndingJudged.TheVariants as TheJudged;
ghost use Rattle.tox_log.specs.Judging.{Expects, HasSaidAll, HoldsUnsaid, KeepsUp, Judged, MayStayOpen, Refuses, RefusesEnding, Stays, Hears, SaysPart, next_table, part_from, slice_in, source_heard};

use std::alloc::{AllocError, Global};
use tox_compile::{Op, Plan};
use tox_link::{Act, LinkCore};
use tox_time::{Ending, MAX_BYTES, Micros, Slice};
use tox_words::Words;

/// A piece came while 1024 pieces wait.
#[derive(Clone, Copy)]
pub(crate) struct TooDeep;

/// What the plan of a log still has to say for what was heard.
///
/// It keeps at most 1024 pieces, as a live link does.
#[derive(Drop)]
pub(crate) struct Judge {
    pub(crate) core: LinkCore<'static>,
    /// What is left of the slice that the core gave last.
    pub(crate) rest: Option<Slice>,
    /// How many bytes were heard.
    pub(crate) heard: u64,
    /// How many bytes were said.
    pub(crate) said: u64,
    /// The last reading.
    pub(crate) latest: Micros,
    /// Whether the source's end was heard.
    pub(crate) ended: bool,
    /// Whether an operation of the plan leaves the link open from an instant on.
    pub(crate) opens: bool,
}

/// What a judge makes of the ending that a log tells.
#[derive(Clone, Copy)]
pub(crate) enum EndingJudged {
    /// All was said, the ending is settled and reached, and it is the plan's.
    Reported,
    /// No link with this log reports it.
    Refused,
    /// The plan may leave the link open, but hasn't done so yet.
    Early,
}

/// The judge of a log under this plan. Nothing was heard yet.
pub(crate) fn begin(alloc: Global, plan: Plan, words: Words) -> Result<Judge, AllocError>
    ensures held { IfOk result KeepsUp }
    ensures start { IfOk result (λ judge. (judge.heard ≡ 0) × (judge.latest ≡ 0)
        × (judge.ended ≡ false)) }
    ensures judged { IfOk result (λ judge. (reported : ℕ → Bool)
        → Judged (means plan words) reported judge []) }
{
    let opens = may_leave_open(plan.ops());
    let core = LinkCore::owning(alloc, plan, words)?;
    Ok(Judge {
        core,
        rest: None,
        heard: 0,
        said: 0,
        latest: Micros::ZERO,
        ended: false,
        opens,
    })
}

/// Whether some of these operations leaves a link open from an instant on.
fn may_leave_open(ops: &[Op]) -> bool
    ensures { result ≡ list_any leaves_open ops.now }
{
    ops.iter().any(leaves_open)
}

/// Whether an operation leaves a link open from an instant on.
fn leaves_open(op: &Op) -> bool
    ensures { result ≡ leaves_open op.now }
{
    matches!(
        op,
        Op::Halt {
            at: Some(_),
            ending: Ending::StillOpen,
            ..
        }
    )
}

/// Whether a piece may be heard next: a log's reader hands out no other.
pub(crate) fn takes_piece(judge: &Judge, len: u64, instant: &Micros) -> bool
    ensures fits { IsTrue result → (judge.now.latest ≤ instant.now) × IsInstant instant.now
        × (0 < len) × (judge.now.heard + len ≤ 2 ^ 40) × (judge.now.ended ≡ false) }
    ensures takes { judge.now.latest ≤ instant.now → 0 < len → judge.now.heard + len ≤ 2 ^ 40
        → judge.now.ended ≡ false → IsTrue result }
{
    takes_at(judge, instant)
        && !judge.ended
        && 0 < len
        && len <= MAX_BYTES
        && judge.heard <= MAX_BYTES - len
}

/// Whether the clock may be read so next.
pub(crate) fn takes_at(judge: &Judge, reading: &Micros) -> bool
    ensures fits { IsTrue result → (judge.now.latest ≤ reading.now) × IsInstant reading.now }
    ensures takes { judge.now.latest ≤ reading.now → IsTrue result }
{
    judge.latest.get() <= reading.get()
}

/// A piece was heard. It is skipped where the plan takes none any more.
pub(crate) fn hear_piece(judge: &mut Judge, len: u64, instant: &Micros) -> Result<(), TooDeep>
    requires held { KeepsUp judge.old }
    requires later { judge.old.latest ≤ instant.now }
    requires fits { IsInstant instant.now × (0 < len) × (judge.old.heard + len ≤ 2 ^ 40) }
    requires going { judge.old.ended ≡ false }
    ensures held { KeepsUp judge.new }
    ensures counts { OnOk result ((judge.new.heard ≡ judge.old.heard + len)
        × (judge.new.latest ≡ instant.now) × (judge.new.ended ≡ judge.old.ended)) }
    ensures hears { OnOk result (Hears judge.old (OneEvent.Piece len instant.now) judge.new) }
    ensures deep { OnErr result ((means : List OneItem → List OneItem) (reported : ℕ → Bool)
        (log : List OneEvent) → Judged means reported judge.old log → 1024 ≤ waiting_pieces log) }
{
    make_room(judge, instant);
    if let Some(_last) = judge.core.ending() {
        skip_piece(judge, len, instant);
        return Ok(());
    }
    if !judge.core.has_room() {
        return Err(TooDeep);
    }
    take_piece(judge, len, instant);
    Ok(())
}

/// Gives up the pieces that bring no further slice, where no room is left.
fn make_room(judge: &mut Judge, instant: &Micros)
    requires held { KeepsUp judge.old }
    requires later { judge.old.latest ≤ instant.now }
    ensures held { KeepsUp judge.new }
    ensures counts { (judge.new.heard ≡ judge.old.heard) × (judge.new.latest ≤ instant.now)
        × (judge.new.ended ≡ judge.old.ended) × (judge.new.said ≡ judge.old.said) }
    ensures stays { Stays judge.old judge.new }
    ensures deep { HoldsUnsaid judge.new }
{
    if !judge.core.has_room() {
        look(judge, instant);
    }
}

/// A piece is heard that the plan doesn't take any more.
fn skip_piece(judge: &mut Judge, len: u64, instant: &Micros)
    requires held { KeepsUp judge.old }
    requires later { judge.old.latest ≤ instant.now }
    requires fits { IsInstant instant.now × (0 < len) × (judge.old.heard + len ≤ 2 ^ 40) }
    requires going { judge.old.ended ≡ false }
    requires over { IsSome (core_ending judge.old.core) }
    requires only { (last : EndingType) × ((items : List OneItem)
        → remaining_output judge.old.core items ≡ final_of last ∷ []) }
    ensures held { KeepsUp judge.new }
    ensures counts { (judge.new.heard ≡ judge.old.heard + len) × (judge.new.latest ≡ instant.now)
        × (judge.new.ended ≡ judge.old.ended) }
    ensures hears { Hears judge.old (OneEvent.Piece len instant.now) judge.new }
{
    judge.heard += len;
    judge.latest = *instant;
}

/// A piece is heard that waits.
fn take_piece(judge: &mut Judge, len: u64, instant: &Micros)
    requires held { KeepsUp judge.old }
    requires later { judge.old.latest ≤ instant.now }
    requires fits { IsInstant instant.now × (0 < len) × (judge.old.heard + len ≤ 2 ^ 40) }
    requires going { judge.old.ended ≡ false }
    requires live { core_ending judge.old.core ≡ None }
    requires room { kept_count judge.old.core < 1024 }
    ensures held { KeepsUp judge.new }
    ensures counts { (judge.new.heard ≡ judge.old.heard + len) × (judge.new.latest ≡ instant.now)
        × (judge.new.ended ≡ judge.old.ended) }
    ensures hears { Hears judge.old (OneEvent.Piece len instant.now) judge.new }
{
    let Ok(()) = judge.core.on_piece(len, *instant) else {
        unreachable!()
    };
    judge.heard += len;
    judge.latest = *instant;
}

/// The source's end was heard.
pub(crate) fn hear_end(judge: &mut Judge, instant: &Micros)
    requires held { KeepsUp judge.old }
    requires later { judge.old.latest ≤ instant.now }
    requires fits { IsInstant instant.now }
    requires going { judge.old.ended ≡ false }
    ensures held { KeepsUp judge.new }
    ensures counts { (judge.new.heard ≡ judge.old.heard) × (judge.new.latest ≡ instant.now)
        × (judge.new.ended ≡ true) }
    ensures hears { Hears judge.old (OneEvent.SourceEnd instant.now) judge.new }
{
    judge.core.on_end(*instant);
    judge.ended = true;
    judge.latest = *instant;
}

/// Whether a slice may be said next at a reading: it begins where the last one stopped, has bytes, and is due.
fn may_be_said(said: u64, slice: &Slice, reading: &Micros) -> bool
    ensures fits { IsTrue result → (slice.now.span.start ≡ said)
        × (slice.now.span.start < slice.now.span.stop) × (slice.now.instant ≤ reading.now) }
    ensures takes { slice.now.span.start ≡ said → slice.now.span.start < slice.now.span.stop
        → slice.now.instant ≤ reading.now → IsTrue result }
{
    slice.span.start == said && slice.span.start < slice.span.stop && slice.instant <= *reading
}

/// A slice was said at a reading. False if the plan doesn't mean it: the judge then stands within that slice.
pub(crate) fn hear_wrote(judge: &mut Judge, slice: &Slice, reading: &Micros) -> bool
    requires held { KeepsUp judge.old }
    requires later { judge.old.latest ≤ reading.now }
    ensures held { KeepsUp judge.new }
    ensures counts { IsTrue result → (judge.new.heard ≡ judge.old.heard)
        × (judge.new.latest ≡ reading.now) × (judge.new.ended ≡ judge.old.ended) }
    ensures hears { IsTrue result
        → Hears judge.old (OneEvent.Wrote slice.now reading.now) judge.new }
    ensures refuses { result ≡ false → Refuses judge.old (OneEvent.Wrote slice.now reading.now) }
{
    if !may_be_said(judge.said, slice, reading) {
        return false;
    }
    judge.latest = *reading;
    'parts: while judge.said < slice.span.stop {
        if !say_part(judge, slice, reading) {
            return false;
        }
    }
    true
}

/// Says the next part of a slice. False if the plan doesn't mean it.
fn say_part(judge: &mut Judge, slice: &Slice, reading: &Micros) -> bool
    requires held { KeepsUp judge.old }
    requires now { judge.old.latest ≡ reading.now }
    requires left { judge.old.said < slice.now.span.stop }
    ensures held { KeepsUp judge.new }
    ensures counts { IsTrue result → (judge.new.heard ≡ judge.old.heard)
        × (judge.new.latest ≡ reading.now) × (judge.new.ended ≡ judge.old.ended) }
    ensures on { IsTrue result → (judge.old.said < judge.new.said)
        × (judge.new.said ≤ slice.now.span.stop) }
    ensures says { IsTrue result → SaysPart judge.old slice.now.instant judge.new }
    ensures expects { Expects judge.old (slice.now.span.stop - judge.old.said) slice.now.instant
        → slice.now.instant ≤ reading.now
        → (result ≡ true)
        × Expects judge.new (slice.now.span.stop - judge.new.said) slice.now.instant }
{
    look(judge, reading);
    let Some(part) = judge.rest else {
        return false;
    };
    if part.instant != slice.instant {
        return false;
    }
    say(judge, &part, slice.span.stop.min(part.span.stop));
    true
}

/// Says what is left of the core's slice, up to a position.
fn say(judge: &mut Judge, part: &Slice, stop: u64)
    requires held { KeepsUp judge.old }
    requires part { judge.old.rest ≡ Some part.now }
    requires within { (judge.old.said < stop) × (stop ≤ part.now.span.stop) }
    ensures held { KeepsUp judge.new }
    ensures counts { (judge.new.heard ≡ judge.old.heard) × (judge.new.latest ≡ judge.old.latest)
        × (judge.new.ended ≡ judge.old.ended) × (judge.new.said ≡ stop) }
    ensures says { SaysPart judge.old part.now.instant judge.new }
    ensures next { next_table judge.old
        ≡ replicate (stop - judge.old.said) part.now.instant ++ next_table judge.new }
{
    judge.said = stop;
    judge.rest = part_from(part, stop);
}

/// Looks for the next slice that is due at a reading, where none is left.
fn look(judge: &mut Judge, reading: &Micros)
    requires held { KeepsUp judge.old }
    requires later { judge.old.latest ≤ reading.now }
    ensures held { KeepsUp judge.new }
    ensures counts { (judge.new.heard ≡ judge.old.heard) × (judge.new.latest ≡ reading.now)
        × (judge.new.ended ≡ judge.old.ended) × (judge.new.said ≡ judge.old.said) }
    ensures stays { Stays judge.old judge.new }
    ensures next { next_table judge.new ≡ next_table judge.old }
    ensures finds { (due : ℕ) → slice_get (next_table judge.old) 0 ≡ Some due
        → due ≤ reading.now → IsSome judge.new.rest }
    ensures all { next_table judge.old ≡ [] → HasSaidAll judge.new reading.now }
    ensures deep { HoldsUnsaid judge.new }
{
    judge.latest = *reading;
    if judge.rest.is_none() {
        ask(judge, reading);
    }
}

/// Asks the core for a slice that is due at a reading.
fn ask(judge: &mut Judge, reading: &Micros)
    requires held { KeepsUp judge.old }
    requires none { judge.old.rest ≡ None }
    requires now { judge.old.latest ≡ reading.now }
    ensures held { KeepsUp judge.new }
    ensures counts { (judge.new.heard ≡ judge.old.heard) × (judge.new.latest ≡ judge.old.latest)
        × (judge.new.ended ≡ judge.old.ended) × (judge.new.said ≡ judge.old.said) }
    ensures stays { Stays judge.old judge.new }
    ensures next { next_table judge.new ≡ next_table judge.old }
    ensures finds { (due : ℕ) → slice_get (next_table judge.old) 0 ≡ Some due
        → due ≤ reading.now → IsSome judge.new.rest }
    ensures all { next_table judge.old ≡ [] → HasSaidAll judge.new reading.now }
    ensures deep { HoldsUnsaid judge.new }
{
    let act = judge.core.on_clock(*reading);
    judge.rest = slice_in(&act);
}

fn slice_in(act: &Act) -> Option<Slice>
    ensures { result ≡ slice_in act.now }
{
    match act {
        Act::Write(slice) => Some(*slice),
        _ => None,
    }
}

/// Judges an ending that a log tells at a reading.
pub(crate) fn judge_ending(judge: &mut Judge, ending: &Ending, reading: &Micros) -> EndingJudged
    requires held { KeepsUp judge.old }
    requires later { judge.old.latest ≤ reading.now }
    requires fits { IsInstant reading.now }
    ensures held { KeepsUp judge.new }
    ensures counts { (judge.new.heard ≡ judge.old.heard) × (judge.new.said ≡ judge.old.said)
        × (judge.new.ended ≡ judge.old.ended) }
    ensures latest { judge.new.latest ≡ reading.now }
    ensures stays { (means : List OneItem → List OneItem) (reported : ℕ → Bool) (log : List OneEvent)
        → Judged means reported judge.old log → Judged means reported judge.new log }
    ensures reports { result ≡ TheJudged.Reported
        → (means : List OneItem → List OneItem) (reported : ℕ → Bool) (log : List OneEvent)
        → reported reading.now ≡ true → Judged means reported judge.old log
        → ReportsAt means (λ t. reported t ≡ true) log judge.old.heard judge.old.said ending.now
        (source_heard judge.old.ended) reading.now }
    ensures refuses { result ≡ TheJudged.Refused → RefusesEnding judge.old reading.now ending.now }
    ensures early { result ≡ TheJudged.Early → (ending.now ≡ OneEnding.StillOpen)
        × MayStayOpen judge.new }
{
    look(judge, reading);
    let Some(last) = judge.core.ending() else {
        return judge_unknown(judge.opens && judge.rest.is_none(), ending);
    };
    if is_end(&judge.rest, &last, ending, reading) {
        EndingJudged::Reported
    } else {
        EndingJudged::Refused
    }
}

/// Judges an ending while the core knows none, where all was said and the plan may leave the link open, or not. Before it does, no
/// close may be able to end the link any more.
fn judge_unknown(opens: bool, ending: &Ending) -> EndingJudged
    ensures refuses { result ≡ TheJudged.Refused ↔ (ending.now ≡ OneEnding.StillOpen → opens ≡ false) }
    ensures early { result ≡ TheJudged.Early ↔ ((ending.now ≡ OneEnding.StillOpen) × (opens ≡ true)) }
{
    if opens && *ending == Ending::StillOpen {
        EndingJudged::Early
    } else {
        EndingJudged::Refused
    }
}

/// Whether nothing is left of a slice, and the last ending is this one and reached.
fn is_end(rest: &Option<Slice>, last: &Ending, ending: &Ending, reading: &Micros) -> bool
    ensures { IsTrue result ↔ ((rest.now ≡ None) × (last.now ≡ ending.now)
        × IsReached reading.now ending.now) }
{
    rest.is_none() && *last == *ending && is_reached(ending, reading)
}

/// What is left of a slice from a position on.
fn part_from(slice: &Slice, start: u64) -> Option<Slice>
    ensures { result ≡ part_from slice.now start }
{
    if start < slice.span.stop {
        let mut rest = *slice;
        rest.span.start = start;
        Some(rest)
    } else {
        None
    }
}

/// Whether the ending's instant, if it has one, is reached.
fn is_reached(ending: &Ending, reading: &Micros) -> bool
    ensures { IsTrue result ↔ IsReached reading.now ending.now }
{
    match ending {
        Ending::StillOpen => true,
        Ending::Closed(instant) | Ending::Reset(instant) => *instant <= *reading,
    }
}
