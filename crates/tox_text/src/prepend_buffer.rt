//! A short text that is put together from its end, as the digits of a number are: nothing that stands before them must be moved.
ghost use Rattle.std.specs.Prelude.{◌≡◌, [], ◌+◌, ◌*◌, ◌≤◌, ◌++◌, length, decimal};
ghost use Rattle.hex.specs.Hex.{encode_lower};

use itoa::write_digits;
use std::marker::Model;

/// The most bytes of a text: of a line with three numbers and 64 bytes in hexadecimal digits.
pub(crate) const MAX_LEN: usize = 193;

/// A text of at most [`MAX_LEN`] bytes. Each part is put before those that it has.
#[derive(Drop)]
pub(crate) struct PrependBuffer {
    bytes: [u8; MAX_LEN],
    start: usize,
}

impl Model for PrependBuffer {
    ghost use Rattle.std.specs.Prelude.{ℕ, ◌≤◌, List, drop};

    ghost Value = { List ℕ };

    ghost view = { λ buffer. drop buffer.start buffer.bytes };

    ghost invariant = { λ buffer. buffer.start ≤ 193 };
}

impl PrependBuffer {
    /// An empty text.
    pub(crate) fn new() -> PrependBuffer
        ensures { result ≡ [] }
    {
        PrependBuffer {
            bytes: [0; MAX_LEN],
            start: MAX_LEN,
        }
    }

    /// Puts these bytes before the text.
    pub(crate) fn prepend(&mut self, bytes: &[u8])
        requires { length bytes.now + length self.old ≤ 193 }
        ensures { self.new ≡ bytes.now ++ self.old }
    {
        let start = self.start - bytes.len();
        self.bytes[start..self.start].copy_from_slice(bytes);
        self.start = start;
    }

    /// Puts a number's decimal digits before the text.
    pub(crate) fn prepend_number(&mut self, number: u64)
        requires { 20 + length self.old ≤ 193 }
        ensures digits { self.new ≡ decimal number ++ self.old }
        ensures short { length self.new ≤ 20 + length self.old }
    {
        self.start = write_digits(number, &mut self.bytes, self.start);
    }

    /// Puts the hexadecimal digits of these bytes before the text.
    pub(crate) fn prepend_hex(&mut self, bytes: &[u8])
        requires { 2 * length bytes.now + length self.old ≤ 193 }
        ensures digits { self.new ≡ encode_lower bytes.now ++ self.old }
        ensures short { length self.new ≡ 2 * length bytes.now + length self.old }
    {
        let start = self.start - 2 * bytes.len();
        let digits = &mut self.bytes[start..self.start];
        hex::encode_to_slice(bytes, digits).unwrap();
        self.start = start;
    }

    /// The text.
    pub(crate) fn as_slice(&self) -> &[u8]
        ensures { result.now ≡ self.now }
    {
        &self.bytes[self.start..]
    }
}
