//! What has to hold before a call that is tested may be made.
ghost use Rattle.std.specs.Prelude.{◌≡◌, true};

use std::process::Abort;

/// Stops the test unless a condition holds: proved once, where `assert!` is proved at each place.
pub fn demand(rt: &impl Abort, condition: bool)
    ensures { condition ≡ true }
{
    assert!(rt; condition);
}
