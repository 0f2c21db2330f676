//! How far a log is.

/// How far a log is.
#[derive(Clone, Copy, PartialEq, Eq)]
pub(crate) enum LogState {
    Goes,
    /// It has its last line, or its greatest length.
    Done,
    /// A line couldn't be kept: memory was refused, or too much waits. What waits still goes to the file.
    Cut,
    /// It was cut or its file failed, and that was reported.
    Reported,
}
