//! Units of attributes.

/// What an attribute's value counts.
#[derive(Clone, Copy, Debug, PartialEq, Eq)]
pub enum Unit {
    Milliseconds,
    Microseconds,
    /// Of 1000 bytes, in a second.
    Kilobytes,
    Bytes,
}

impl Unit {
    /// What stands for a value in a form, as in `latency=MS`.
    pub fn placeholder(self) -> &'static str {
        match self {
            Unit::Milliseconds => "MS",
            Unit::Microseconds => "MICROS",
            Unit::Kilobytes => "KB",
            Unit::Bytes => "BYTES",
        }
    }

    /// The unit in words, in the plural.
    pub fn words(self) -> &'static str {
        match self {
            Unit::Milliseconds => "milliseconds",
            Unit::Microseconds => "microseconds",
            Unit::Kilobytes => "kilobytes (of 1000 bytes) a second",
            Unit::Bytes => "bytes",
        }
    }
}
