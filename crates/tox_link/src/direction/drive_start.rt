//! How much a drive does, so that others have their turn.
ghost use Rattle.std.specs.Prelude.{◌≡◌, ◌+◌, ◌<◌, ◌≤◌, ◌⊎◌, false, IsTrue};
ghost use Rattle.tox_link.specs.direction.Driven.{moved_of};
ghost use Rattle.tox_link.specs.direction.Follows.{IsHeld};

use crate::direction::polled_link::PolledLink;

/// After how many bytes, taken and written, a drive goes on no further.
const BYTES: u64 = 81_920;

/// After how many cuts of its core a drive goes on no further.
const CUTS: u64 = 4_096;

/// How far a direction was when its drive began.
#[derive(Clone, Copy)]
pub(crate) struct DriveStart {
    /// How many bytes it had taken and written.
    moved: u64,
    /// How many cuts its core had given.
    cuts: u64,
}

impl DriveStart {
    /// The drive begins here.
    pub fn of(link: &PolledLink) -> DriveStart
        requires { IsHeld link.now }
        ensures { result ≡ record { moved = moved_of link.now; cuts = link.now.core.runner.cuts } }
    {
        DriveStart {
            moved: link.moved(),
            cuts: link.core.cuts(),
        }
    }

    /// Whether the drive goes on no further.
    pub fn has_done_enough(&self, link: &PolledLink) -> bool
        requires { IsHeld link.now }
        ensures enough { IsTrue result → (self.now.moved + 81_920 ≤ moved_of link.now)
            ⊎ (self.now.cuts + 4_096 ≤ link.now.core.runner.cuts) }
        ensures few { result ≡ false → moved_of link.now < self.now.moved + 81_920 }
    {
        let moved = link.moved().saturating_sub(self.moved);
        let cuts = link.core.cuts().saturating_sub(self.cuts);
        moved >= BYTES || cuts >= CUTS
    }
}
