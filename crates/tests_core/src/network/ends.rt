//! Ends in memory.
ghost use Rattle.std.specs.Prelude.{◌≡◌};

use crate::comparing::assert_equal;
use crate::plan::demands::demand;
use std::process::Abort;
use tox_time::{EndFault, MemorySink, MemorySource, Real, Sink, Source};

/// Compares what a call of an end returns.
fn returns(rt: &impl Abort, got: Result<usize, EndFault>, want: Result<usize, EndFault>)
    ensures { got ≡ want }
{
    assert_equal(rt, &got, &want);
    demand(rt, got == want);
}

#[test]
fn a_source_gives_so_many_bytes_a_call(rt: HostRuntime) {
    let bytes = b"abcde".to_vec(rt.alloc()).expect(&rt, "memory");
    let mut source = MemorySource::new(bytes, 2, Some(5));
    let mut buffer = [0; 4];
    for want in [2, 2, 1, 0] {
        returns(&rt, source.read(&mut buffer), Ok(want));
    }
    assert_equal(&rt, &buffer, b"ed\0\0");
    returns(&rt, source.read(&mut buffer), Err(EndFault));
}

#[test]
fn a_sink_fills_up(rt: HostRuntime) {
    let mut sink = MemorySink::new(rt.alloc(), 3, 2, None).expect(&rt, "memory");
    for want in [2, 1, 0] {
        returns(&rt, sink.write(b"abc"), Ok(want));
    }
    assert_equal(&rt, &sink.bytes(), &b"aba".as_slice());
}

#[test]
fn a_sink_fails_at_its_call(rt: HostRuntime) {
    let mut sink = MemorySink::new(rt.alloc(), 9, 9, Some(2)).expect(&rt, "memory");
    returns(&rt, sink.write(b"abc"), Ok(3));
    returns(&rt, sink.write(b"abc"), Err(EndFault));
    assert_equal(&rt, &sink.bytes(), &b"abc".as_slice());
}

#[test]
fn a_real_source_passes_bytes_on(rt: HostRuntime) {
    let mut source = Real::new(b"ab".as_slice());
    let mut buffer = [0; 4];
    returns(&rt, source.read(&mut buffer), Ok(2));
    assert_equal(&rt, &buffer, b"ab\0\0");
    returns(&rt, source.read(&mut buffer), Ok(0));
}

#[test]
fn a_real_sink_passes_bytes_on(rt: HostRuntime) {
    let mut written = Vec::new(rt.alloc());
    let mut sink = Real::new(&mut written);
    returns(&rt, sink.write(b"ab"), Ok(2));
    returns(&rt, sink.write(b"c"), Ok(1));
    assert_equal(&rt, &written.as_slice(), &b"abc".as_slice());
}
