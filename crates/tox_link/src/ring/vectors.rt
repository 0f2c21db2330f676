//! Where the vectors of pieces come from: those that are empty again go back to the reader's thread.
ghost use Rattle.std.specs.Prelude.{◌≡◌, IfOk};

use rtrb::{Consumer, Producer, RingBuffer};
use std::alloc::{AllocError, Global};

/// How many emptied vectors wait for the reader's thread at most.
const EMPTIED: usize = 8;

/// The writer's end: vectors that are empty again, or not needed any more.
pub type Emptied = Producer<Vec<u8>, Global>;

/// The reader's end. It gives an emptied vector where one that fits waits, and else a new one.
#[derive(Drop)]
pub struct Vectors {
    alloc: Global,
    emptied: Consumer<Vec<u8>, Global>,
}

impl Vectors {
    /// Both ends. No vector waits.
    pub fn new(alloc: Global) -> Result<(Emptied, Vectors), AllocError> {
        let (sender, emptied) = RingBuffer::new(alloc, EMPTIED)?;
        Ok((sender, Vectors { alloc, emptied }))
    }

    /// A vector with these bytes: an emptied one, unless less than half of it would be used. So a small piece holds no large vector.
    pub fn with_bytes(&mut self, bytes: &[u8]) -> Result<Vec<u8>, AllocError>
        ensures { IfOk result (λ vector. vector.items ≡ bytes.now) }
    {
        if let Ok(mut vector) = self.emptied.pop() {
            if vector.capacity() / 2 <= bytes.len() {
                vector.clear();
                vector.extend_from_slice(bytes)?;
                return Ok(vector);
            }
        }
        Vec::from_slice(self.alloc, bytes)
    }
}
