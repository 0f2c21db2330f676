//! Files that are read once, and kept for an explanation, with the reason that the system gives where it refuses one.
use crate::explaining::Explaining;
use std::alloc::Global;
use std::cell::{Cell, RefCell};
use std::io::Read;
use std::rt::Files;
use std::{fs, io};
use tox_explain::NamedText;
use tox_proxy::{FileFault, NamedFiles, read_opened};
use tox_time::Real;

/// A file that was read.
#[derive(Drop)]
struct KeptFile {
    name: String,
    bytes: Vec<u8>,
}

/// The files of the runtime. What is read of them is kept if a fault is explained.
#[derive(Drop)]
pub struct KeptFiles<'r, R> {
    rt: &'r R,
    is_kept: bool,
    files: RefCell<Vec<KeptFile>>,
    /// Why the system refused a file.
    refusal: Cell<Option<io::Error>>,
}

/// The files that were read, and why the system refused one.
#[derive(Drop)]
pub struct FilesRead {
    files: Vec<KeptFile>,
    pub refusal: Option<io::Error>,
}

impl<'r, R: Files> KeptFiles<'r, R> {
    pub fn new(rt: &'r R, alloc: Global, explaining: Explaining) -> KeptFiles<'r, R> {
        KeptFiles {
            rt,
            is_kept: explaining.needs_inputs(),
            files: RefCell::new(Vec::new(alloc)),
            refusal: Cell::new(None),
        }
    }

    pub fn into_read(self) -> FilesRead {
        FilesRead {
            refusal: self.refusal.get(),
            files: self.files.into_inner(),
        }
    }

    /// Keeps a file. Without memory for it it isn't explained.
    fn keep(&self, alloc: Global, name: &str, bytes: &[u8]) {
        let Ok(name) = name.to_string(alloc) else {
            return;
        };
        let Ok(bytes) = Vec::from_slice(alloc, bytes) else {
            return;
        };
        if let Ok(mut files) = self.files.try_borrow_mut() {
            let _ = files.push(KeptFile { name, bytes });
        }
    }
}

impl<'r, R: Files> NamedFiles for KeptFiles<'r, R> {
    ghost use Rattle.std.specs.Prelude.{None};

    ghost known = { λ files name. None };

    fn read<'a>(&self, alloc: Global, name: &'a str) -> Result<Vec<u8>, FileFault<'a>> {
        let file = match fs::open(self.rt, name) {
            Ok(file) => file,
            Err(error) => {
                self.refusal.set(Some(error));
                return Err(FileFault::Unreadable(name));
            }
        };
        let reader = NotingReader {
            input: file,
            refusal: &self.refusal,
        };
        let bytes = read_opened(alloc, &mut Real::new(reader), name)?;
        if self.is_kept {
            self.keep(alloc, name, &bytes);
        }
        Ok(bytes)
    }
}

/// A reader that notes why a read failed.
#[derive(Drop)]
pub struct NotingReader<'k, I> {
    pub input: I,
    pub refusal: &'k Cell<Option<io::Error>>,
}

impl<'k, I: Read> Read for NotingReader<'k, I> {
    fn read(&mut self, buf: &mut [u8]) -> io::Result<usize> {
        match self.input.read(buf) {
            Ok(count) => Ok(count),
            Err(error) => {
                self.refusal.set(Some(error));
                Err(error)
            }
        }
    }
}

impl FilesRead {
    /// The file of this name.
    pub fn named<'a>(&'a self, name: &'a str) -> Option<NamedText<'a>> {
        let file = self.files.iter().find(|file| file.name.as_str() == name)?;
        Some(NamedText {
            name,
            bytes: &file.bytes,
        })
    }
}
