//! The next piece through the cursors of a plan. The cursors stand last operation first, and their ends nest: cursor k's
//! unread bytes are `cursor[k-1].stop..cursor[k].stop`.
ghost use Rattle.std.specs.Prelude.{◌≡◌, ◌+◌, ◌^◌, ◌<◌, ◌≤◌, [], ◌∷◌, length, take, drop, All, None, Some, false};
ghost use Rattle.tox_time.specs.declared.streams.slice.Slice.{Slice as OneSlice};
ghost use Rattle.tox_words.specs.Draw.{Draws, draws_of};
ghost use Rattle.tox_defs.specs.operations.Op.{is_mute};
ghost use Rattle.tox_defs.specs.operations.OpCursor.{IsSoundCursor, MatchEmission};
ghost use Rattle.tox_plan.specs.OpCursors.{AreNested, AreOpenUnless, IsRead, BeginsUnread, IsFrom, LooksOnce, MatchPulled, PullsThrough, StayOpen, ops_of};

use tox_defs::{Emission, OpCursor};
use tox_time::{Slice, Span};
use tox_words::Drawing;

/// Counts the looks at cursors, and notes whether one found an ending.
#[derive(Clone, Copy)]
pub(crate) struct PullStats {
    /// How often a cursor was looked at.
    pub(crate) turns: u64,
    /// Whether some cursor may keep an ending.
    pub(crate) ended: bool,
}

/// The rest of a source's piece, of which the bytes from `start` on are unread.
fn pull_source(start: u64, source: &Slice) -> Option<Emission>
    requires { start ≤ source.now.span.stop }
    ensures { (draws : Draws) → MatchPulled draws start [] [] source.now result }
{
    if start == source.span.stop {
        return None;
    }
    let span = Span {
        start,
        stop: source.span.stop,
    };
    Some(Emission::Piece(Slice {
        span,
        instant: source.instant,
    }))
}

/// Pulls the next piece through the cursors, where the reader of the first one stands at `start`: the nearest cursor
/// that has a rest or an ending gives it, or else the source does, and the cursors in front of it pass it on.
/// Each look at a cursor is one turn.
pub(crate) fn pull(
    cursors: &mut [OpCursor],
    start: u64,
    source: &Slice,
    drawing: &Drawing<'_>,
    looks: &mut PullStats,
) -> Option<Emission>
    requires nested { AreNested start cursors.old source.now }
    requires few { source.now.span.stop ≤ 2 ^ 40 }
    requires room { looks.old.turns + length cursors.old < 2 ^ 64 }
    ensures pulled { MatchPulled
        (draws_of drawing.now) start cursors.old cursors.new source.now result }
    ensures ops { ops_of cursors.new ≡ ops_of cursors.old }
    ensures turns { LooksOnce (length cursors.old) looks.old.turns looks.new.turns }
    ensures ended { AreOpenUnless looks.old.ended cursors.old
        → AreOpenUnless looks.new.ended cursors.new }
{
    let read = count_read(cursors, start);
    let (read, unread) = cursors.split_at_mut(read);
    let mut pulled = pull_nearest(unread, start, source, drawing, looks);
    pass(read, start, &mut pulled, drawing, looks);
    pulled
}

/// How many of the first cursors have nothing left, where their reader stands at `start`.
fn count_read(cursors: &[OpCursor], start: u64) -> usize
    ensures most { result ≤ length cursors.now }
    ensures read { (source : OneSlice) → AreNested start cursors.now source
        → All (IsRead start) (take result cursors.now)
        × AreNested start (drop result cursors.now) source }
    ensures unread { BeginsUnread start (drop result cursors.now) }
{
    match cursors.split_first() {
        Some((cursor, upstream)) if cursor.stop == start && cursor.ending.is_none() => {
            1 + count_read(upstream, start)
        }
        _ => 0,
    }
}

/// What the first of these cursors gives, which has a rest or an ending, or the source where there is no cursor.
fn pull_nearest(
    cursors: &mut [OpCursor],
    start: u64,
    source: &Slice,
    drawing: &Drawing<'_>,
    looks: &mut PullStats,
) -> Option<Emission>
    requires nested { AreNested start cursors.old source.now }
    requires unread { BeginsUnread start cursors.old }
    requires room { looks.old.turns + length cursors.old < 2 ^ 64 }
    ensures pulled { MatchPulled
        (draws_of drawing.now) start cursors.old cursors.new source.now result }
    ensures from { source.now.span.stop ≤ 2 ^ 40 → IsFrom start result }
    ensures ops { ops_of cursors.new ≡ ops_of cursors.old }
    ensures turns { LooksOnce (length cursors.old) looks.old.turns looks.new.turns }
    ensures ended { AreOpenUnless looks.old.ended cursors.old
        → AreOpenUnless looks.new.ended cursors.new }
{
    let Some((cursor, _upstream)) = cursors.split_first_mut() else {
        return pull_source(start, source);
    };
    looks.turns += 1;
    if let Some(ending) = cursor.ending {
        return Some(Emission::End(ending));
    }
    Some(advance(cursor, start, drawing, looks))
}

/// Passes what comes from upstream through cursors that have nothing left, the last of them first.
fn pass(
    cursors: &mut [OpCursor],
    start: u64,
    pulled: &mut Option<Emission>,
    drawing: &Drawing<'_>,
    looks: &mut PullStats,
)
    requires read { All (IsRead start) cursors.old }
    requires from { IsFrom start pulled.old }
    requires room { looks.old.turns + length cursors.old < 2 ^ 64 }
    ensures pulled { PullsThrough (draws_of drawing.now) start cursors.old cursors.new
        pulled.old pulled.new }
    ensures ops { ops_of cursors.new ≡ ops_of cursors.old }
    ensures turns { looks.new.turns ≡ looks.old.turns + length cursors.old }
    ensures ended { StayOpen looks.old.ended looks.new.ended cursors.new }
{
    if let Some((cursor, downstream)) = cursors.split_last_mut() {
        pass_one(cursor, start, pulled, drawing, looks);
        pass(downstream, start, pulled, drawing, looks);
    }
}

/// Passes what comes from upstream through a cursor that has nothing left.
fn pass_one(
    cursor: &mut OpCursor,
    start: u64,
    pulled: &mut Option<Emission>,
    drawing: &Drawing<'_>,
    looks: &mut PullStats,
)
    requires read { IsRead start cursor.old }
    requires from { IsFrom start pulled.old }
    requires room { looks.old.turns + 1 < 2 ^ 64 }
    ensures pulled { PullsThrough (draws_of drawing.now) start (cursor.old ∷ []) (cursor.new ∷ [])
        pulled.old pulled.new }
    ensures from { IsFrom start pulled.new }
    ensures op { cursor.new.op ≡ cursor.old.op }
    ensures turns { looks.new.turns ≡ looks.old.turns + 1 }
    ensures ended { StayOpen looks.old.ended looks.new.ended (cursor.new ∷ []) }
{
    looks.turns += 1;
    match *pulled {
        Some(Emission::Piece(piece)) => {
            cursor.stop = piece.span.stop;
            cursor.instant = piece.instant;
            *pulled = Some(advance(cursor, start, drawing, looks));
        }
        Some(Emission::End(ending)) => {
            let ending = cursor.op.map_ending(&cursor.state, &ending);
            *pulled = Some(Emission::End(ending));
        }
        None => {}
    }
}

/// The next piece of a cursor's rest, or its ending. Inlined for the reason that [`OpCursor::advance`] is: it does all the work of a
/// look.
#[inline(always)]
fn advance(
    cursor: &mut OpCursor,
    start: u64,
    drawing: &Drawing<'_>,
    looks: &mut PullStats,
) -> Emission
    requires some { start < cursor.old.stop }
    requires heard { is_mute cursor.old.op ≡ false }
    requires open { cursor.old.ending ≡ None }
    requires sound { IsSoundCursor start cursor.old }
    ensures given { MatchEmission (draws_of drawing.now) start cursor.old cursor.new result }
    ensures from { IsFrom start (Some result) }
    ensures op { cursor.new.op ≡ cursor.old.op }
    ensures turns { looks.new.turns ≡ looks.old.turns }
    ensures ended { StayOpen looks.old.ended looks.new.ended (cursor.new ∷ []) }
{
    let emission = cursor.advance(start, drawing);
    looks.ended |= cursor.ending.is_some();
    emission
}
