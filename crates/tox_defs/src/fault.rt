//! Faults of toxics, short forms and chains.
ghost use Rattle.std.specs.Prelude.{◌≡◌};

use thiserror::Error;

/// Why a toxic is refused.
#[derive(Clone, Copy, Debug, PartialEq, Eq, Error)]
pub enum ToxicFault {
    /// No toxic has this type.
    #[error("S3 UnknownType")]
    UnknownType,
    /// The type has no such attribute.
    #[error("S4 UnknownAttribute")]
    UnknownAttribute,
    /// An attribute is out of its range.
    #[error("S5 OutOfRange")]
    OutOfRange,
    /// A slicer's `size_variation` isn't below its `average_size`.
    #[error("S6 Variation")]
    Variation,
    /// The toxicity isn't a whole number from 0 to 1000.
    #[error("S7 ToxicityNotThousandths")]
    ToxicityNotThousandths,
}

/// Why a text isn't a short form of a toxic.
#[derive(Clone, Copy, Debug, PartialEq, Eq, Error)]
pub enum ShortFault {
    /// The text isn't a type, or a type, a colon and pairs of a key and a number.
    #[error("Q1 BadForm")]
    BadForm,
    /// A key is given twice.
    #[error("Q2 DoubleKey")]
    DoubleKey,
    /// The toxic is refused.
    #[error(transparent)]
    Toxic(ToxicFault),
}

impl From<ToxicFault> for ShortFault {
    ghost use Rattle.tox_defs.specs.declared.fault.ShortFault.TheVariants as short;

    ghost from_gives = { λ cause fault. fault ≡ short.Toxic cause };

    fn from(fault: ToxicFault) -> ShortFault {
        ShortFault::Toxic(fault)
    }
}

/// The chain is full.
#[derive(Clone, Copy, Debug, PartialEq, Eq, Error)]
#[error("S9 TooManyToxics")]
pub struct TooManyToxics;
