//! The arrivals text.
pub(crate) mod arrivals_line;
pub(crate) mod check;
pub(crate) mod hex_pairs;
pub(crate) mod list;
pub(crate) mod text_lines;
