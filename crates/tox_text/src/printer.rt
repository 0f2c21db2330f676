//! What prints texts: a writer behind a buffer, so that each call of the writer gets many bytes.
ghost use Rattle.std.specs.Prelude.{◌≡◌, [], ◌≤◌, length, false, OnOk, decimal};
ghost use Rattle.hex.specs.Hex.{encode_lower};
ghost use Rattle.tox_text.specs.Parts.{printed, text_of};
ghost use Rattle.tox_text.specs.Printing.{IsWorking, Prints};
ghost use Rattle.tox_text.specs.Writing.{Writes};

use crate::names::print_name;
use crate::parts::Part;
use arrayvec::ArrayVec;
use tox_time::{EndFault, Sink};

/// How many bytes are turned into digits at once.
const BYTES_AT_ONCE: usize = 64;

/// A writer, and bytes that wait for it, at most `ROOM`. It takes no memory.
#[derive(Drop)]
pub struct SizedPrinter<'w, W, const ROOM: usize> {
    bytes: ArrayVec<u8, ROOM>,
    writer: &'w mut W,
}

/// Prints a text.
pub type Printer<'w, W> = SizedPrinter<'w, W, 8_192>;

/// Prints a line. Made faster than a `Printer`, whose room is filled first.
pub type LinePrinter<'w, W> = SizedPrinter<'w, W, 256>;

impl<'w, W: Sink, const ROOM: usize> SizedPrinter<'w, W, ROOM> {
    /// Nothing waits.
    pub fn new(writer: &'w mut W) -> SizedPrinter<'w, W, ROOM>
        ensures empty { result.bytes.items ≡ [] }
        ensures writer { result.writer.now ≡ writer.old }
        ensures same_writer { result.writer.ghost_name ≡ writer.entry.ghost_name }
    {
        SizedPrinter {
            bytes: ArrayVec::new(),
            writer,
        }
    }

    /// Prints the parts of a text, one behind the other.
    pub fn print(&mut self, parts: &[Part<'_>]) -> Result<(), EndFault>
        requires { IsWorking W.Sink self.old }
        ensures { Prints W.Sink result self.old self.new (text_of parts.now) }
    {
        for part in parts {
            self.print_part(part)?;
        }
        Ok(())
    }

    /// Writes what waits.
    pub fn finish(self) -> Result<(), EndFault>
        requires { W.failed self.writer.now ≡ false }
        ensures { Writes result (W.written self.entry.writer.now) (W.written self.exit.1.0.now)
            (W.failed self.exit.1.0.now) self.entry.bytes.items }
    {
        let SizedPrinter { bytes, writer } = self;
        write_all(writer, bytes.as_slice())
    }

    fn print_part(&mut self, part: &Part<'_>) -> Result<(), EndFault>
        requires { IsWorking W.Sink self.old }
        ensures { Prints W.Sink result self.old self.new (printed part.now) }
    {
        match part {
            Part::Word(text) => self.put(text.as_bytes()),
            Part::Number(number) => self.put_number(*number),
            Part::Name(name) => print_name(self, name),
            Part::Hex(bytes) => self.put_hex(bytes),
        }
    }

    /// Prints bytes. Writes what waits first if there is no room for them.
    pub(crate) fn put(&mut self, bytes: &[u8]) -> Result<(), EndFault>
        requires { IsWorking W.Sink self.old }
        ensures { Prints W.Sink result self.old self.new bytes.now }
    {
        if bytes.len() > self.bytes.remaining_capacity() {
            self.flush()?;
        }
        if bytes.len() > ROOM {
            return write_all(self.writer, bytes);
        }
        self.bytes.try_extend_from_slice(bytes).unwrap();
        Ok(())
    }

    fn flush(&mut self) -> Result<(), EndFault>
        requires { IsWorking W.Sink self.old }
        ensures prints { Prints W.Sink result self.old self.new [] }
        ensures empty { OnOk result (self.new.bytes.items ≡ []) }
    {
        write_all(self.writer, self.bytes.as_slice())?;
        self.bytes.clear();
        Ok(())
    }

    pub(crate) fn put_number(&mut self, number: u64) -> Result<(), EndFault>
        requires { IsWorking W.Sink self.old }
        ensures { Prints W.Sink result self.old self.new (decimal number) }
    {
        self.put(itoa::Buffer::new().format(number).as_bytes())
    }

    /// Prints bytes in hexadecimal digits.
    pub(crate) fn put_hex(&mut self, bytes: &[u8]) -> Result<(), EndFault>
        requires { IsWorking W.Sink self.old }
        ensures { Prints W.Sink result self.old self.new (encode_lower bytes.now) }
    {
        let mut done = 0;
        while done < bytes.len() {
            let rest = &bytes[done..];
            let some = &rest[..rest.len().min(BYTES_AT_ONCE)];
            self.put_some_hex(some)?;
            done += some.len();
        }
        Ok(())
    }

    fn put_some_hex(&mut self, bytes: &[u8]) -> Result<(), EndFault>
        requires works { IsWorking W.Sink self.old }
        requires few { length bytes.now ≤ BYTES_AT_ONCE }
        ensures { Prints W.Sink result self.old self.new (encode_lower bytes.now) }
    {
        let mut digits = [0; 2 * BYTES_AT_ONCE];
        let text = &mut digits[..2 * bytes.len()];
        hex::encode_to_slice(bytes, text).unwrap();
        self.put(text)
    }
}

/// Writes the parts of a text.
pub fn write_parts<W: Sink>(writer: &mut W, parts: &[Part<'_>]) -> Result<(), EndFault>
    requires { W.failed writer.old ≡ false }
    ensures { Writes result (W.written writer.old) (W.written writer.new)
        (W.failed writer.new) (text_of parts.now) }
{
    let mut printer = Printer::new(writer);
    printer.print(parts)?;
    printer.finish()
}

/// Writes all the bytes.
pub(crate) fn write_all<W: Sink>(writer: &mut W, bytes: &[u8]) -> Result<(), EndFault>
    requires { W.failed writer.old ≡ false }
    ensures { Writes result (W.written writer.old) (W.written writer.new)
        (W.failed writer.new) bytes.now }
{
    let mut sent = 0;
    while sent < bytes.len() {
        let count = writer.write(&bytes[sent..])?;
        if count == 0 {
            return Err(EndFault);
        }
        sent += count;
    }
    Ok(())
}
