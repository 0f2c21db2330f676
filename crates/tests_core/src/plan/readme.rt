//! The example that README shows of the library.
use std::test::Fail;
use tox_defs::{Chain, read_short};
use tox_plan::deliver;
use tox_time::{Arrivals, Ending, Micros, Slice, Span};
use tox_words::Words;

#[test]
fn both_bytes_leave_after_the_latency(rt: HostRuntime) -> Result<(), Fail> {
    let alloc = rt.alloc();
    let words = Words::from_list(alloc, &[0])?;
    let mut chain = Chain::new();
    let (toxic, toxicity) = read_short("latency:latency=100")?;
    chain.push(toxic, toxicity)?;
    let mut arrivals = Arrivals::new(alloc);
    arrivals.push(2, Micros::ZERO)?;
    arrivals.eof(Micros::ZERO.after(50))?;
    let outcome = deliver(alloc, &chain, &words, &arrivals)?;
    let left = Slice {
        span: Span { start: 0, stop: 2 },
        instant: Micros::from_millis(100),
    };
    assert_eq!(rt; outcome.slices.as_slice(), [left].as_slice());
    assert_eq!(rt; outcome.ending, Ending::Closed(Micros::from_millis(100)));
    Ok(())
}
