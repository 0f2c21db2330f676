//! What a printed text is put together from.

/// A part of a printed text.
#[derive(Clone, Copy, Debug)]
pub enum Part<'a> {
    /// A text as it stands.
    Word(&'a str),
    /// A number in decimal digits.
    Number(u64),
    /// A name that keeps to its line: a control character is printed as `\x` and its code in two hexadecimal digits, one that orders
    /// text from left to right or from right to left as `\u` and four.
    Name(&'a str),
    /// Bytes in hexadecimal digits.
    Hex(&'a [u8]),
}
