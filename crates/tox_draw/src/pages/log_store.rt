//! Where the logs of a report are.
ghost use Rattle.std.specs.Prelude.{◌≡◌, ℕ, List, None, false, IfSome, IfNone};
ghost use Rattle.tox_draw.specs.pages.Logs.{KnownLog, MayLack, OpensLog};

use tox_time::Source;

/// What opens logs by name. A log is opened once to be judged, and twice more for its picture.
pub trait LogStore {
    type Reader: Source + Drop;

    /// What is known of the log of a name: nothing, that it can't be opened, or its bytes.
    ghost known: { Self → List ℕ → KnownLog } = { λ _ _. None };

    /// The log of this name from its start. None if it can't be opened.
    fn open(&self, name: &str) -> Option<Self::Reader>
        ensures working { IfSome result (λ reader. Self.Reader.failed reader ≡ false) }
        ensures opened { IfSome result
            (λ reader. OpensLog (known self.now name.now) (Self.Reader.remaining reader)) }
        ensures missing { IfNone result (MayLack (known self.now name.now)) };
}
