//! Units that people write behind a number, in the one that a key of a short form has.
use crate::toxic_attributes::attribute_of;
use tox_defs::{Toxic, Unit};

/// The key of a short form that each type has.
pub const TOXICITY: &str = "toxicity";

/// What the value of a key counts.
#[derive(Clone, Copy, PartialEq, Eq)]
pub(crate) enum KeyUnit {
    Attribute(Unit),
    /// A chance.
    Thousandths,
}

/// A unit as a fraction of another.
#[derive(Clone, Copy)]
pub(crate) struct Scale {
    pub(crate) times: u64,
    pub(crate) per: u64,
}

impl KeyUnit {
    /// The unit of a key of a type.
    pub(crate) fn of(type_name: &str, key: &str) -> Option<KeyUnit> {
        if key == TOXICITY {
            return Some(KeyUnit::Thousandths);
        }
        let toxic = Toxic::of_name(type_name)?;
        let attribute = attribute_of(&toxic, key)?;
        Some(KeyUnit::Attribute(attribute.unit))
    }

    /// The unit in words.
    pub(crate) fn words(self) -> &'static str {
        match self {
            KeyUnit::Attribute(unit) => unit.words(),
            KeyUnit::Thousandths => "thousandths, 0 to 1000, such as 30 (3.0 %)",
        }
    }

    /// What a written unit, in small letters, is in this one.
    pub(crate) fn scale(self, written: &str) -> Option<Scale> {
        let (times, per) = match self {
            KeyUnit::Attribute(Unit::Milliseconds) => (micros_in(written)?, 1_000),
            KeyUnit::Attribute(Unit::Microseconds) => (micros_in(written)?, 1),
            KeyUnit::Attribute(Unit::Kilobytes) => (bytes_in(rate_of(written))?, 1_000),
            KeyUnit::Attribute(Unit::Bytes) => (bytes_in(written)?, 1),
            KeyUnit::Thousandths if written == "%" => (10, 1),
            KeyUnit::Thousandths => return None,
        };
        Some(Scale { times, per })
    }
}

fn micros_in(written: &str) -> Option<u64> {
    match written {
        "us" | "\u{b5}s" => Some(1),
        "ms" => Some(1_000),
        "s" | "sec" => Some(1_000_000),
        "m" | "min" => Some(60_000_000),
        "h" => Some(3_600_000_000),
        _ => None,
    }
}

fn bytes_in(written: &str) -> Option<u64> {
    match written {
        "b" => Some(1),
        "k" | "kb" => Some(1_000),
        "m" | "mb" => Some(1_000_000),
        "g" | "gb" => Some(1_000_000_000),
        "ki" | "kib" => Some(1 << 10),
        "mi" | "mib" => Some(1 << 20),
        "gi" | "gib" => Some(1 << 30),
        _ => None,
    }
}

/// The unit of a rate without its second.
fn rate_of(written: &str) -> &str {
    match written.strip_suffix("/s") {
        Some(unit) => unit,
        None => written,
    }
}
