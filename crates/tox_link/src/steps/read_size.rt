//! How much one read takes.

/// The most bytes of a piece, and of one read of a reader's thread.
pub const READ_SIZE: usize = 16_384;

/// The most bytes of one read of a direction that is driven: four pieces.
pub const SCRATCH_SIZE: usize = 65_536;
