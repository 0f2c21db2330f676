//! Tables of random words, from which toxics draw.
#![tactic(auto)]

mod drawing;
mod fault;
mod first_words;
mod lanes;
mod seed;
mod text;
mod word_table;
mod words;

pub use drawing::Drawing;
pub use fault::WordsFault;
pub use first_words::FirstWords;
pub use lanes::{Lanes, MAX_LANES};
pub use words::{MAX_CONNECTIONS, MAX_WORDS, Words};
