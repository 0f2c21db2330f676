//! A link core that is asked only what it may be asked.
ghost use Rattle.std.specs.Prelude.{◌≡◌, ◌≤◌, false};

use std::process::Abort;
use tox_compile::Plan;
use tox_link::{Act, LinkCore};
use tox_time::{ArrivalFault, Micros};
use tox_words::Words;

/// A core, and whether it was told of its source's end. Each call asserts what the core requires.
#[derive(Drop)]
pub struct CoreCase<'w> {
    pub core: LinkCore<'w>,
    pub ended: bool,
    ghost same: { ended ≡ core.ended },
}

impl<'w> CoreCase<'w> {
    /// A core at which nothing has arrived.
    pub fn new(rt: &(impl Abort + AllocGlobal), plan: Plan, words: &'w Words) -> CoreCase<'w> {
        let core = LinkCore::new(rt.alloc(), plan, words);
        CoreCase {
            core: core.expect(rt, "memory"),
            ended: false,
        }
    }

    /// Asserts that the core's last instant isn't after `now`.
    fn assert_reached(&self, rt: &impl Abort, now: Micros)
        ensures { self.now.core.latest ≤ now }
    {
        assert!(rt; self.core.latest().get() <= now.get());
    }

    /// What the core answers at an instant.
    pub fn ask(&mut self, rt: &impl Abort, now: Micros) -> Act {
        self.assert_reached(rt, now);
        self.core.on_clock(now)
    }

    /// Whether the core takes a piece.
    pub fn give(&mut self, rt: &impl Abort, len: u64, now: Micros) -> Result<(), ArrivalFault> {
        assert!(rt; self.core.has_room());
        self.assert_reached(rt, now);
        self.core.on_piece(len, now)
    }

    /// Tells the core of its source's end.
    pub fn end(&mut self, rt: &impl Abort, now: Micros) {
        assert!(rt; !self.ended);
        self.assert_reached(rt, now);
        self.core.on_end(now);
        self.ended = true;
    }
}
