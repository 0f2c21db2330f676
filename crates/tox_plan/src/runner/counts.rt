//! What a runner counts, and its last instant.
ghost use Rattle.std.specs.Prelude.{◌≡◌, ◌+◌, ◌*◌, ◌<◌, ◌≤◌, length};

use crate::runner::Runner;
use tox_time::Micros;

impl<'w> Runner<'w> {
    /// How often `next_cut` looked at an operation: at most once for each operation, for each cut and each piece.
    pub fn turns(&self) -> u64
        ensures value { result ≡ self.now.turns }
        ensures most { result ≤ length self.now.cursors * (self.now.cuts + self.now.pieces) }
        ensures least { 0 < length self.now.cursors → self.now.cuts ≤ result }
    {
        self.looks.turns
    }

    /// How many cuts were given.
    pub fn cuts(&self) -> u64
        ensures { result ≡ self.now.cuts }
    {
        self.cuts
    }

    /// How many pieces were accepted.
    pub fn pieces(&self) -> u64
        ensures { result ≡ self.now.pieces }
    {
        self.pieces
    }

    /// The last instant: that of the last accepted piece or of the source's end, 0 at first.
    pub fn latest(&self) -> Micros
        ensures { result ≡ self.now.latest }
    {
        self.latest
    }
}
