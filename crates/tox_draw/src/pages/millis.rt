//! Instants in milliseconds.
ghost use Rattle.std.specs.Prelude.{Some};
ghost use Rattle.tox_draw.specs.pages.Millis.{millis};

use std::fmt;

/// Microseconds, printed as milliseconds with three digits behind the point.
#[derive(Clone, Copy)]
pub(crate) struct Millis(pub(crate) u64);

impl fmt::Display for Millis {
    ghost output = { λ micros. Some (millis micros.0) };

    #[tactic(auto, unfolding(crate::specs::pages::Millis::millis))]
    fn fmt<W: fmt::Write>(&self, f: &mut fmt::Formatter<W>) -> fmt::Result {
        let whole = self.0 / 1000;
        let tenths = self.0 / 100 % 10;
        let hundredths = self.0 / 10 % 10;
        let thousandths = self.0 % 10;
        write!(f, "{whole}.{tenths}{hundredths}{thousandths}")
    }
}
