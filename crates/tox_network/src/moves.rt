//! The moves of a network.

/// One move of a network. Stages count from 0; queue k stands before stage k, and one behind the last.
#[derive(Clone, Copy, Debug, PartialEq, Eq, Hash)]
pub enum Move {
    /// The next arrival enters queue 0.
    Arrive,
    /// Stage k, with nothing left to emit, takes the first item of queue k.
    Take(usize),
    /// Stage k emits its next item into queue k + 1.
    Put(usize),
    /// The first item of the last queue is delivered.
    Deliver,
}
