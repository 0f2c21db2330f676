//! Reading an input whole.
ghost use Rattle.std.specs.Prelude.{◌≡◌, ◌≢◌, ◌+◌, ◌<◌, false, length, IfOk, IfErr, Err};
ghost use Rattle.tox_runs.specs.runs.Reading.{HasInputCause, ReadsWhole, TakesAtMost};

use std::alloc::{AllocError, Global};
use tox_time::Source;

/// The most bytes of an input.
pub const MAX_INPUT: usize = 16_777_216;

/// How many bytes are asked for at once.
const BLOCK: usize = 65_536;

/// Why an input was not read whole.
#[derive(Clone, Copy, Debug, PartialEq, Eq)]
pub enum InputFault {
    OutOfMemory,
    /// It has more than [`MAX_INPUT`] bytes.
    TooLong,
    /// A read failed.
    ReadFault,
}

/// All the bytes that a reader has still to give. At most one more than [`MAX_INPUT`] are taken.
pub fn read_input<R: Source>(alloc: Global, reader: &mut R) -> Result<Vec<u8>, InputFault>
    requires { R.failed reader.old ≡ false }
    ensures ok { IfOk result
        (λ text. ReadsWhole (R.remaining reader.old) (R.remaining reader.new) text.items) }
    ensures fault { IfErr result
        (HasInputCause (R.remaining reader.old) (R.remaining reader.new) (R.failed reader.new)) }
    ensures working { result ≢ Err InputFault.ReadFault → R.failed reader.new ≡ false }
    ensures most { TakesAtMost (16_777_216 + 1) (R.remaining reader.old) (R.remaining reader.new) }
{
    let Ok(mut block) = zeros(alloc, BLOCK) else {
        return Err(InputFault::OutOfMemory);
    };
    read_by_blocks(alloc, reader, &mut block)
}

fn zeros(alloc: Global, len: usize) -> Result<Vec<u8>, AllocError>
    ensures { IfOk result (λ bytes. length bytes.items ≡ len) }
{
    vec![in alloc; 0; len]
}

/// Reads through a block, which is asked to be filled at each read.
fn read_by_blocks<R: Source>(
    alloc: Global,
    reader: &mut R,
    block: &mut [u8],
) -> Result<Vec<u8>, InputFault>
    requires working { R.failed reader.old ≡ false }
    requires room { 0 < length block.old }
    ensures ok { IfOk result
        (λ text. ReadsWhole (R.remaining reader.old) (R.remaining reader.new) text.items) }
    ensures fault { IfErr result
        (HasInputCause (R.remaining reader.old) (R.remaining reader.new) (R.failed reader.new)) }
    ensures working { result ≢ Err InputFault.ReadFault → R.failed reader.new ≡ false }
    ensures most { TakesAtMost (16_777_216 + 1) (R.remaining reader.old) (R.remaining reader.new) }
{
    let mut text = Vec::new(alloc);
    while text.len() <= MAX_INPUT {
        let wanted = block.len().min(MAX_INPUT + 1 - text.len());
        let part = &mut block[..wanted];
        let Ok(count) = reader.read(part) else {
            return Err(InputFault::ReadFault);
        };
        if count == 0 {
            return Ok(text);
        }
        if text.extend_from_slice(&part[..count]).is_err() {
            return Err(InputFault::OutOfMemory);
        }
    }
    Err(InputFault::TooLong)
}
