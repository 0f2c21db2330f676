//! What passes over a link.
ghost use Rattle.std.specs.Prelude.{◌≡◌};

use crate::micros::Micros;
use crate::streams::span::Span;

/// What passes over a link: chunks of bytes, then one of the three finals.
#[derive(Clone, Copy, Debug, PartialEq, Eq, Hash)]
pub enum Item {
    /// A nonempty range of bytes, and its instant.
    Chunk(Span, Micros),
    /// The sender closed the link.
    Closed(Micros),
    /// The link was reset.
    Reset(Micros),
    /// Nothing more ever arrives.
    Quiet,
}

impl Item {
    ghost use Rattle.tox_time.specs.streams.Stream.{is_final};

    /// Whether it is a final: anything but a chunk.
    pub fn is_final(&self) -> bool
        ensures { result ≡ is_final self.now }
    {
        match self {
            Item::Chunk(..) => false,
            Item::Closed(_) | Item::Reset(_) | Item::Quiet => true,
        }
    }
}
