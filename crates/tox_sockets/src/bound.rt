//! Bounds that may be missing.
ghost use Rattle.std.specs.Prelude.{◌≡◌};
ghost use Rattle.tox_sockets.specs.Bound.{is_reached};

use tox_time::Micros;

/// Whether an instant is reached, if there is one.
pub(crate) fn is_reached(due: Option<Micros>, now: Micros) -> bool
    ensures { result ≡ is_reached due now }
{
    match due {
        Some(due) => due <= now,
        None => false,
    }
}
