//! What the value of an argument may be, and what holds without one.
use clap::builder::ValueParser;
use std::fmt;

/// What the value of an argument may be.
#[derive(Clone, Copy)]
pub enum Takes {
    /// It has none: a flag.
    Nothing,
    Text,
    /// One of these names.
    Names(&'static [&'static str]),
    Number(NumberRange),
}

/// The whole numbers that an option takes: `least..=most`, and what they count.
#[derive(Clone, Copy)]
pub struct NumberRange {
    pub least: u64,
    pub most: u64,
    /// In the plural. Empty: they count nothing.
    pub unit: &'static str,
}

/// What holds without the argument.
#[derive(Clone, Copy)]
pub enum Absent {
    /// What the help needn't tell.
    Untold,
    Number(u64),
    /// Something in words.
    Words(&'static str),
}

/// A number as the help shows it.
#[derive(Clone, Copy)]
pub struct ShownNumber(pub u64);

impl Takes {
    /// How `clap` reads the value.
    pub(crate) fn parser(self) -> ValueParser<'static> {
        match self {
            Takes::Nothing => ValueParser::Bool,
            Takes::Text => ValueParser::String,
            Takes::Names(names) => ValueParser::Names(names),
            Takes::Number(range) => ValueParser::Unsigned(range.least, range.most),
        }
    }
}

impl fmt::Display for ShownNumber {
    fn fmt<W: fmt::Write>(&self, f: &mut fmt::Formatter<W>) -> fmt::Result {
        match self.0 {
            u64::MAX => f.write_str("2^64 - 1"),
            1_099_511_627_776 => f.write_str("2^40"),
            number => write!(f, "{number}"),
        }
    }
}

impl fmt::Display for NumberRange {
    fn fmt<W: fmt::Write>(&self, f: &mut fmt::Formatter<W>) -> fmt::Result {
        write!(
            f,
            "{} to {}",
            ShownNumber(self.least),
            ShownNumber(self.most)
        )
    }
}

impl fmt::Display for Absent {
    fn fmt<W: fmt::Write>(&self, f: &mut fmt::Formatter<W>) -> fmt::Result {
        match self {
            Absent::Untold => Ok(()),
            Absent::Number(number) => write!(f, "{}", ShownNumber(*number)),
            Absent::Words(words) => f.write_str(words),
        }
    }
}
