//! How a link ends, as tables write it.
use tests_support::at;
use tox_time::Ending;

/// How a link ends, with instants in microseconds.
#[derive(Clone, Copy)]
pub enum End {
    StillOpen,
    Closed(u64),
    Reset(u64),
}

impl End {
    pub fn ending(self) -> Ending {
        match self {
            End::StillOpen => Ending::StillOpen,
            End::Closed(micros) => Ending::Closed(at(micros)),
            End::Reset(micros) => Ending::Reset(at(micros)),
        }
    }
}
