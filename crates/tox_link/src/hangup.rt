//! Where a link's bytes go, and what ends its connections.
ghost use Rattle.std.specs.Prelude.{◌≡◌, List, Option};
ghost use Rattle.tox_link.specs.Hangups.{Call, with_call};

use tox_time::Ending;

/// What ends the connections of a link.
pub trait Hangup {
    /// The calls so far, if they are kept.
    ghost calls: { Self → Option (List Call) };

    /// Called once if the reader's thread started: with how the link ends and whether the source's end was taken, or
    /// after a fault with a reset and false.
    fn hang_up(&mut self, ending: Ending, source_ended: bool)
        ensures { calls self.new ≡ with_call (calls self.old) ending source_ended };
}

/// The far end of a link.
#[derive(Drop)]
pub struct Ends<W, H> {
    pub writer: W,
    pub hangup: H,
}
