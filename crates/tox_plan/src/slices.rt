//! The slices of an offered piece, lent from its bytes.
ghost use Rattle.std.specs.Prelude.{◌≡◌, false};
ghost use Rattle.tox_plan.specs.Slices.{IsOffered};

use crate::runner::Runner;
use tox_lend::{Lent, Piece};

/// The slices of an offered piece, lent from its bytes. It owns the runner until
/// [`into_runner`](Slices::into_runner).
#[derive(Drop)]
pub struct Slices<'w, 'a> {
    runner: Runner<'w>,
    piece: &'a Piece,
}

impl<'w> Runner<'w> {
    /// The slices of this piece, which was offered last and of which nothing was given yet.
    pub fn slices<'a>(self, piece: &'a Piece) -> Slices<'w, 'a>
        requires offered { IsOffered self piece.now }
        requires unread { (self.idle ≡ false) × (self.position ≡ self.piece.span.start) }
        ensures { (result.runner ≡ self.entry) × (result.piece.now ≡ piece.now) }
    {
        Slices {
            runner: self,
            piece,
        }
    }
}

impl<'w, 'a> Slices<'w, 'a> {
    /// Gives the runner back, as the given slices left it.
    pub fn into_runner(self) -> Runner<'w>
        ensures { result ≡ self.entry.runner }
    {
        self.runner
    }
}

impl<'w, 'a> Iterator for Slices<'w, 'a> {
    ghost use Rattle.tox_plan.specs.Slices.{CanLend, GivesLent, bytes_left};

    type Item = Lent<'a>;

    ghost can_next = { CanLend };

    ghost next_gives = { GivesLent };

    ghost remaining = { bytes_left };

    fn next(&mut self) -> Option<Lent<'a>> {
        let slice = self.runner.next_cut()?;
        Some(self.piece.lend(slice.span, slice.instant))
    }
}
