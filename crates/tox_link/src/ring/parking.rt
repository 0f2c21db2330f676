//! What the two sides of a link's ring sleep on.
use std::thread::Parker;

/// What the two sides of a ring sleep on.
#[derive(Drop)]
pub struct Parkers {
    /// Woken after each pop.
    pub reader: Parker,
    /// Woken after each push.
    pub writer: Parker,
}

impl Parkers {
    pub fn new() -> Parkers {
        Parkers {
            reader: Parker::new(),
            writer: Parker::new(),
        }
    }
}
