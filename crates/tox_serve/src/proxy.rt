//! One served proxy: its address, the connections that it takes, and the book of its links.
pub(crate) mod accepting;
pub(crate) mod filling;
pub(crate) mod link_book;
pub(crate) mod links;
pub(crate) mod listening;
pub(crate) mod taking;
