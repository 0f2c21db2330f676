//! Logical time, and what travels over a link: spans of bytes, items, arrivals and outcomes;
//! the ends that bytes are read from and written to; how a thread waits for another.
#![tactic(auto)]

mod cap;
mod ends;
mod gate;
mod memory_sink;
mod memory_source;
mod micros;
mod pausing;
mod real;
mod streams;
mod text;

pub use cap::{Cap, MAX_CAP};
pub use ends::{EndFault, Sink, Source};
pub use gate::{Gate, OpenGate};
pub use memory_sink::MemorySink;
pub use memory_source::MemorySource;
pub use micros::{HORIZON, Micros};
pub use pausing::pause;
pub use real::Real;
pub use streams::arrivals::{ArrivalFault, Arrivals};
pub use streams::ending::Ending;
pub use streams::item::Item;
pub use streams::outcome::Outcome;
pub use streams::position::StreamPosition;
pub use streams::slice::{Slice, SliceList};
pub use streams::span::{MAX_BYTES, Span};
pub use streams::stream::Stream;
pub use text::{MAX_TEXT_LEN, is_sized, parse_decimal};
