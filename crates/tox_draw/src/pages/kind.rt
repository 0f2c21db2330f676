//! What the totals count.
ghost use Rattle.std.specs.Prelude.{◌≡◌, ◌≤◌, count_by, length};
ghost use Rattle.tox_draw.specs.pages.Kinds.{has, is_broken, is_cut, is_reset, is_unfaithful, is_unfinished, outcome_has};

use crate::pages::outcome::Outcome;
use crate::pages::row::Row;

/// What the totals count.
#[derive(Clone, Copy)]
pub(crate) enum Kind {
    Reset,
    Cut,
    Broken,
    /// Broken, or without a last line.
    Unfinished,
    Unfaithful,
}

/// How many of the rows are of a kind.
pub(crate) fn count_of(rows: &[Row], kind: Kind) -> u64
    ensures { result ≡ count_by (has kind) rows.now }
{
    let mut count = 0;
    for row in rows {
        if has(kind, row) {
            count += 1;
        }
    }
    count
}

/// Whether a row is of a kind.
pub(crate) fn has(kind: Kind, row: &Row) -> bool
    ensures { result ≡ has kind row.now }
{
    outcome_has(kind, &row.facts.outcome)
}

/// Whether an outcome is of a kind.
fn outcome_has(kind: Kind, outcome: &Outcome) -> bool
    ensures { result ≡ outcome_has kind outcome.now }
{
    match kind {
        Kind::Reset => matches!(outcome, Outcome::Reset(_)),
        Kind::Cut => matches!(outcome, Outcome::Cut(_)),
        Kind::Broken => matches!(outcome, Outcome::Broken(_)),
        Kind::Unfinished => matches!(outcome, Outcome::Broken(_) | Outcome::Missing),
        Kind::Unfaithful => matches!(outcome, Outcome::Unfaithful(_)),
    }
}
