//! The reader's thread, and the ring through which it sends.
pub(crate) mod idle;
pub(crate) mod inbox;
pub(crate) mod message;
pub(crate) mod parking;
pub(crate) mod read_loop;
pub(crate) mod reader_thread;
pub(crate) mod vectors;
