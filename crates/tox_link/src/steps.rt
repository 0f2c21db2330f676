//! What both ways of driving a link do at one moment: `carrying` with a reader's thread, and `direction` by events.
pub(crate) mod arriving;
pub(crate) mod deciding;
pub(crate) mod front;
pub(crate) mod read_size;
pub(crate) mod room;
