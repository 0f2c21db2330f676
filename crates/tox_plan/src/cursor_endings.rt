//! The endings of cursors that have nothing left.
ghost use Rattle.std.specs.Prelude.{◌≡◌, ℕ, ◌<◌, List, [], ◌∷◌, None, IsSome, MatchOption};
ghost use Rattle.tox_time.specs.streams.Table.{final_of};
ghost use Rattle.tox_time.specs.declared.streams.slice.Slice.{Slice as OneSlice};
ghost use Rattle.tox_words.specs.Draw.{Draws};
ghost use Rattle.tox_plan.specs.OpCursors.{AreNested, AreDrained, AreRead, HaveEnded, OnlyEnds, to_come_from};

use tox_defs::OpCursor;
use tox_time::Ending;

/// The ending that these cursors, which have nothing left, give for the source's ending.
pub(crate) fn last_of(cursors: &[OpCursor], ending: &Ending) -> Ending
    ensures { (draws : Draws) (start : ℕ) (source : OneSlice) → AreNested start cursors.now source
        → AreDrained start cursors.now source
        → to_come_from draws start cursors.now source (final_of ending.now ∷ [])
        ≡ final_of result ∷ [] }
{
    match cursors {
        [] => *ending,
        [cursor, upstream @ ..] => cursor
            .op
            .map_ending(&cursor.state, &last_of(upstream, ending)),
    }
}

/// The ending that these cursors already know, if any. Their chunks are read to the end.
pub(crate) fn ending_of_read(cursors: &[OpCursor]) -> Option<Ending>
    ensures kept { IsSome result → HaveEnded cursors.now }
    ensures known { (draws : Draws) (start : ℕ) (source : OneSlice)
        → AreNested start cursors.now source → AreRead start cursors.now source
        → MatchOption result (AreDrained start cursors.now source)
        (OnlyEnds draws start cursors.now source) }
{
    let Some((cursor, upstream)) = cursors.split_first() else {
        return None;
    };
    if let Some(ending) = &cursor.ending {
        return Some(*ending);
    }
    match &ending_of_read(upstream) {
        Some(ending) => Some(cursor.op.map_ending(&cursor.state, ending)),
        None => None,
    }
}
