//! Files by name: of the runtime, or in memory.
ghost use Rattle.std.specs.Prelude.{◌≡◌, List, ℕ, None, Some, option_map, IfOk, IfErr};
ghost use Rattle.tox_runs.specs.files.Files.{KnownFile, IsFileFault, IsFileOf, file_named};

use crate::files::{FileFault, read_file};
use crate::runs::whole_input::MAX_INPUT;
use std::alloc::Global;
use std::rt::Files;

/// What reads files by name.
pub trait NamedFiles {
    /// What is known of the file of a name: nothing, that it can't be read, or its bytes.
    ghost known: { Self → List ℕ → KnownFile };

    /// The bytes of the file of this name, at most 16,777,216.
    fn read<'a>(&self, alloc: Global, name: &'a str) -> Result<Vec<u8>, FileFault<'a>>
        ensures ok { IfOk result (λ bytes. IsFileOf (known self.now name.now) bytes.items) }
        ensures fault { IfErr result (IsFileFault (known self.now name.now) name.now) };
}

/// The files of the runtime. Nothing is known of them.
#[derive(Clone, Copy)]
pub struct RealFiles<'r, R> {
    rt: &'r R,
}

impl<'r, R> RealFiles<'r, R> {
    pub fn new(rt: &'r R) -> RealFiles<'r, R> {
        RealFiles { rt }
    }
}

impl<'r, R: Files> NamedFiles for RealFiles<'r, R> {
    ghost known = { λ files name. None };

    fn read<'a>(&self, alloc: Global, name: &'a str) -> Result<Vec<u8>, FileFault<'a>> {
        read_file(self.rt, alloc, name)
    }
}

/// Files in memory, each a name and its bytes. The first of a name counts.
#[derive(Clone, Copy)]
pub struct MemoryFiles<'f> {
    pub files: &'f [(&'f str, &'f [u8])],
}

impl<'f> NamedFiles for MemoryFiles<'f> {
    ghost known = { λ memory name. Some (file_named name memory.files.now) };

    fn read<'a>(&self, alloc: Global, name: &'a str) -> Result<Vec<u8>, FileFault<'a>> {
        let Some(bytes) = file_named(self.files, name) else {
            return Err(FileFault::Unreadable(name));
        };
        if bytes.len() > MAX_INPUT {
            return Err(FileFault::TooLong(name));
        }
        match Vec::from_slice(alloc, bytes) {
            Ok(bytes) => Ok(bytes),
            Err(_) => Err(FileFault::OutOfMemory),
        }
    }
}

/// The bytes of the first of these files that has the name.
fn file_named<'f>(files: &'f [(&'f str, &'f [u8])], name: &str) -> Option<&'f [u8]>
    ensures { option_map (λ bytes. bytes.now) result ≡ file_named name.now files.now }
{
    let Some(((file, bytes), others)) = files.split_first() else {
        return None;
    };
    if *file == name {
        return Some(bytes);
    }
    file_named(others, name)
}
