//! Files, read whole.
ghost use Rattle.std.specs.Prelude.{◌≡◌, false, None, IfOk, IfErr};
ghost use Rattle.tox_runs.specs.files.Files.{HasFileCause, IsFileFault, IsFileOf};
ghost use Rattle.tox_runs.specs.runs.Reading.{ReadsWhole};

pub(crate) mod finding;
pub(crate) mod named_files;
pub(crate) mod pick_request;
pub(crate) mod setup;
pub(crate) mod toxics;

use crate::runs::whole_input::{InputFault, MAX_INPUT, read_input};
use std::alloc::Global;
use std::fs;
use std::rt::Files;
use thiserror::Error;
use tox_text::VisibleName;
use tox_time::{Real, Source};

/// Why a file was not read.
#[derive(Clone, Copy, Debug, PartialEq, Eq, Error)]
pub enum FileFault<'a> {
    #[error("P0 OutOfMemory")]
    OutOfMemory,
    /// The file of this name couldn't be opened, or a read of it failed.
    #[error("P1 FileFault {}", VisibleName(.0))]
    Unreadable(&'a str),
    /// The file of this name has more than [`MAX_INPUT`] bytes.
    #[error("P2 FileTooLong {}", VisibleName(.0))]
    TooLong(&'a str),
}

/// The bytes of a file, of which at most one more than [`MAX_INPUT`] are read.
pub fn read_file<'a, F: Files>(
    rt: &F,
    alloc: Global,
    name: &'a str,
) -> Result<Vec<u8>, FileFault<'a>>
    ensures ok { IfOk result (λ bytes. IsFileOf None bytes.items) }
    ensures fault { IfErr result (IsFileFault None name.now) }
{
    let Ok(file) = fs::open(rt, name) else {
        return Err(FileFault::Unreadable(name));
    };
    read_opened(alloc, &mut Real::new(file), name)
}

/// The bytes that the opened file of this name has still to give, of which at most one more than [`MAX_INPUT`] are read.
pub fn read_opened<'a, R: Source>(
    alloc: Global,
    reader: &mut R,
    name: &'a str,
) -> Result<Vec<u8>, FileFault<'a>>
    requires { R.failed reader.old ≡ false }
    ensures file { IfOk result (λ bytes. IsFileOf None bytes.items) }
    ensures named { IfErr result (IsFileFault None name.now) }
    ensures ok { IfOk result
        (λ bytes. ReadsWhole (R.remaining reader.old) (R.remaining reader.new) bytes.items) }
    ensures fault { IfErr result
        (HasFileCause name.now (R.remaining reader.old) (R.remaining reader.new)
        (R.failed reader.new)) }
{
    match read_input(alloc, reader) {
        Ok(bytes) => Ok(bytes),
        Err(InputFault::OutOfMemory) => Err(FileFault::OutOfMemory),
        Err(InputFault::TooLong) => Err(FileFault::TooLong(name)),
        Err(InputFault::ReadFault) => Err(FileFault::Unreadable(name)),
    }
}
