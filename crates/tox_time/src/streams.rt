//! What travels over a link: what arrives, what leaves, and how it ends.
pub(crate) mod arrivals;
pub(crate) mod ending;
pub(crate) mod item;
pub(crate) mod outcome;
pub(crate) mod position;
pub(crate) mod refusals;
pub(crate) mod slice;
pub(crate) mod span;
pub(crate) mod stream;
