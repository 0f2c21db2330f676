//! Values that tests write down.
use std::alloc::Global;
use tox_defs::{Chain, read_short};
use tox_time::{ArrivalFault, Arrivals, Micros, Slice, Span};

/// The instant after so many microseconds.
pub fn at(micros: u64) -> Micros {
    Micros::ZERO.after(micros)
}

/// The slice of these bytes at an instant in microseconds.
pub fn slice(start: u64, stop: u64, micros: u64) -> Slice {
    Slice {
        span: Span { start, stop },
        instant: at(micros),
    }
}

/// The chain of short forms separated by spaces. None if one of them is refused.
pub fn chain_of(toxics: &str) -> Option<Chain> {
    let mut chain = Chain::new();
    for text in toxics.split_whitespace() {
        let (toxic, toxicity) = read_short(text).ok()?;
        chain.push(toxic, toxicity).ok()?;
    }
    Some(chain)
}

/// Single bytes at instant 0, and no end.
pub fn bytes_at_zero(alloc: Global, count: usize) -> Result<Arrivals, ArrivalFault> {
    let mut arrivals = Arrivals::new(alloc);
    for _ in 0..count {
        arrivals.push(1, Micros::ZERO)?;
    }
    Ok(arrivals)
}

/// Arrivals written as `<bytes>@<micros>`, and the source's end as `eof@<micros>`. None if one of them is refused.
pub fn arrivals_of(alloc: Global, text: &str) -> Option<Arrivals> {
    let mut arrivals = Arrivals::new(alloc);
    for word in text.split_whitespace() {
        let (what, micros) = word.split_once('@')?;
        let instant = Micros::new(micros.parse().ok()?)?;
        match what {
            "eof" => arrivals.eof(instant).ok()?,
            len => arrivals.push(len.parse().ok()?, instant).ok()?,
        }
    }
    Some(arrivals)
}
