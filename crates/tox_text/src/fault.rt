//! Why a text was not read or not written.
use thiserror::Error;
use tox_time::ArrivalFault;

/// Why a dry run failed. Lines count from 1.
#[derive(Clone, Copy, Debug, PartialEq, Eq, Error)]
pub enum DryFault {
    #[error("L0 OutOfMemory")]
    OutOfMemory,
    /// Malformed line.
    #[error("L1 BadLine {0}")]
    BadLine(u64),
    /// The input has more than 16,777,216 bytes.
    #[error("L2 TooLong")]
    TooLong,
    /// A read failed.
    #[error("L3 ReadFault")]
    ReadFault,
    /// A write failed, or took nothing.
    #[error("L4 WriteFault")]
    WriteFault,
    /// The arrival of this line was refused.
    #[error("{0} {1}")]
    Arrival(ArrivalFault, u64),
}

/// A write failed, or took nothing.
#[derive(Clone, Copy, Debug, PartialEq, Eq, Error)]
#[error("L4 WriteFault")]
pub struct WriteFault;
