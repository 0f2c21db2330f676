//! How a test makes requests for memory fail: it takes all that its process can have, and gives a little back.
ghost use Rattle.std.specs.Prelude.{◌≤◌};

use std::alloc::{AllocError, Global};

/// The room for all that a call under test asks for is made of blocks of this size. Larger ones don't lie side by side.
const BLOCK: usize = 1 << 16;

/// How many blocks the room has.
const BLOCKS: usize = 32;

/// The size of each of two blocks for stacks, with room for seven of 8 MB. The C library gives a freed block of more than 32 MB
/// back to the system, and keeps stacks of ended threads for the next ones, up to 40 MB. With 64 MB or more side by side it would
/// give each thread a heap of its own.
const STACKS: usize = 60_000_000;

/// The block of which pages are given back. The C library maps a block of more than 32 MB by itself.
const PAGED: usize = 34_000_000;

/// The size of a page of memory.
const PAGE: usize = 4096;

/// More blocks than memory is made of.
const MAX_BLOCKS: usize = 20_000;

/// A freed block of this size is split to meet smaller requests. Much smaller blocks are kept for requests of their own
/// size.
const SPLITTABLE: usize = 4096;

/// The memory of the process, all taken but for some room.
#[derive(Drop)]
pub struct Scarcity {
    rest: Vec<Vec<u8>>,
    room: Vec<Vec<u8>>,
    paged: Vec<u8>,
}

/// How much of its stack a test has used before it takes all memory. A stack that grows later finds none to map.
const STACK: usize = 196_608;

/// Uses the stack, in a frame that is gone when it returns. What was written there is kept, so that no compiler leaves it out.
#[inline(never)]
fn use_stack(alloc: Global) -> Result<Vec<u8>, AllocError> {
    let mut bytes = [0; STACK];
    for (place, byte) in bytes.iter_mut().enumerate() {
        *byte = (place % 251) as u8;
    }
    bytes.to_vec(alloc)
}

/// Takes blocks of a size until one is refused.
fn take_blocks(alloc: Global, size: usize, blocks: &mut Vec<Vec<u8>>) {
    for _ in 0..MAX_BLOCKS {
        let Ok(block) = Vec::with_capacity(alloc, size) else {
            return;
        };
        let _kept = blocks.push(block);
    }
}

/// Takes what memory there is, in blocks of at most 2^`doublings` KB and ever smaller ones. The C library keeps freed blocks of
/// up to 1 KB by their sizes.
fn take_all(alloc: Global, doublings: u32, blocks: &mut Vec<Vec<u8>>)
    requires { doublings ≤ 30 }
{
    let mut size: usize = 1024 << doublings;
    for _ in 0..doublings {
        take_blocks(alloc, size, blocks);
        size /= 2;
    }
    for sixteens in (1..=64).rev() {
        take_blocks(alloc, 16 * sixteens, blocks);
    }
}

impl Scarcity {
    /// Takes all memory but the room.
    pub fn new(alloc: Global) -> Result<Scarcity, AllocError> {
        Scarcity::keep(alloc, 0)
    }

    /// Takes all memory but the room and the stacks of fourteen threads. Threads that run before the first `leave` keep theirs.
    pub fn with_threads(alloc: Global) -> Result<Scarcity, AllocError> {
        Scarcity::keep(alloc, STACKS)
    }

    /// Takes all memory but the room and two blocks of `stacks` bytes, with the block of pages between them.
    fn keep(alloc: Global, stacks: usize) -> Result<Scarcity, AllocError> {
        let mut rest: Vec<Vec<u8>> = Vec::with_capacity(alloc, MAX_BLOCKS)?;
        rest.push(use_stack(alloc)?)?;
        let mut room: Vec<Vec<u8>> = Vec::with_capacity(alloc, MAX_BLOCKS)?;
        for _ in 0..BLOCKS {
            room.push(Vec::with_capacity(alloc, BLOCK)?)?;
        }
        room.push(Vec::with_capacity(alloc, stacks)?)?;
        let paged = Vec::with_capacity(alloc, PAGED)?;
        room.push(Vec::with_capacity(alloc, stacks)?)?;
        take_all(alloc, 30, &mut rest);
        room.clear();
        Ok(Scarcity { rest, room, paged })
    }

    /// Takes the room too, but for about so many times 16 bytes, which lie side by side.
    pub fn leave(&mut self, alloc: Global, sixteens: usize) -> Result<(), AllocError> {
        let bytes = sixteens.saturating_mul(16);
        let block: Vec<u8> = Vec::with_capacity(alloc, bytes.saturating_add(SPLITTABLE))?;
        take_all(alloc, 16, &mut self.room);
        drop(block);
        self.room.push(Vec::with_capacity(alloc, SPLITTABLE)?)?;
        Ok(())
    }

    /// Takes the room too, but for so many pages. Once a process has had a second thread, a request that finds no heap takes whole
    /// pages.
    pub fn leave_pages(&mut self, alloc: Global, pages: usize) -> Result<(), AllocError> {
        self.leave(alloc, 0)?;
        self.open_pages(pages);
        Ok(())
    }

    /// Leaves so many pages more, of which 8,000 can be had in all.
    pub fn open_pages(&mut self, pages: usize) {
        let size = self.paged.capacity();
        self.paged
            .shrink_to(size.saturating_sub(pages.saturating_mul(PAGE)));
    }

    /// Gives the room back.
    pub fn end(&mut self) {
        self.room.clear();
    }
}
