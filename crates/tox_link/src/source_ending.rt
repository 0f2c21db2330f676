//! How far a link's source came.
ghost use Rattle.std.specs.Prelude.{◌≡◌, Some, MatchResult};
ghost use Rattle.tox_link.specs.declared.ring.message.ReadEnd.TheVariants.{OutOfMemory as NoMemory};
ghost use Rattle.tox_link.specs.Sources.{read_end_of};

use crate::ring::message::ReadEnd;
use std::alloc::AllocError;

/// How a link's source ended before the link's ending was known.
#[derive(Clone, Copy, Debug, PartialEq, Eq)]
pub enum SourceEnding {
    /// The reader had nothing left.
    Eof,
    /// A read failed.
    ReadFault,
    /// As many reads were made as were allowed.
    ReadsUsedUp,
    /// The reader gave more than 2^40 bytes.
    TooManyBytes,
    /// The link's ending was known before the source's end came.
    NotReached,
}

impl SourceEnding {
    /// Why the reading ended. Out of memory if the reader's thread was.
    pub(crate) fn of(end: ReadEnd) -> Result<SourceEnding, AllocError>
        ensures { MatchResult result (λ source. read_end_of source ≡ Some end)
            (λ _. end ≡ NoMemory) }
    {
        match end {
            ReadEnd::Eof => Ok(SourceEnding::Eof),
            ReadEnd::ReadFault => Ok(SourceEnding::ReadFault),
            ReadEnd::ReadsUsedUp => Ok(SourceEnding::ReadsUsedUp),
            ReadEnd::TooManyBytes => Ok(SourceEnding::TooManyBytes),
            ReadEnd::OutOfMemory => Err(AllocError),
        }
    }
}
