//! Dry runs whose ends are short, full, endless or fail. What is printed else is in `tests/rows`.
ghost use Rattle.std.specs.Prelude.{◌≡◌, ◌<◌, false};

use crate::comparing::{assert_equal, assert_equal_at};
use crate::texts::written::assert_begins_at;
use std::process::Abort;
use tests_support::chain_of;
use tox_defs::Chain;
use tox_proxy::{DryFault, MAX_INPUT, dry_run};
use tox_time::{EndFault, MemorySink, MemorySource, Sink, Source};
use tox_words::Words;

/// Room for what any run here writes.
const ROOM: usize = 1000;

/// What the cases that let an end fail read and write.
const READ: &str = "0 data 616263\n10 data 646566";

const WRITTEN: &str = "1000 0..3 616263\n1010 3..4 64\nclosed 1010\n";

/// What a dry run of a chain between these ends answers.
fn run_between<R: Source, W: Sink>(
    rt: &(impl Abort + AllocGlobal),
    reader: &mut R,
    writer: &mut W,
    chain: &Chain,
) -> Result<(), DryFault>
    requires reads { R.failed reader.old ≡ false }
    requires works { W.failed writer.old ≡ false }
{
    let words = Words::from_list(rt.alloc(), &[0]).expect(rt, "words");
    dry_run(rt.alloc(), reader, writer, chain, &words)
}

/// The ends of a dry run of two toxics. The reader gives `read_most` bytes a call, the writer has so much room and takes
/// `write_most` bytes a call, and each fails at the call of its number.
#[derive(Drop)]
struct Ends {
    read_most: usize,
    failing_read: Option<u64>,
    room: usize,
    write_most: usize,
    failing_write: Option<u64>,
}

impl Ends {
    /// What the run answers, and its writer.
    fn run(&self, rt: &(impl Abort + AllocGlobal)) -> (Result<(), DryFault>, MemorySink)
        requires { (0 < self.now.read_most) × (0 < self.now.write_most) }
    {
        let chain = chain_of("limit_data:bytes=4 latency:latency=1").expect(rt, "short forms");
        let bytes = READ.as_bytes().to_vec(rt.alloc()).expect(rt, "memory");
        let mut reader = MemorySource::new(bytes, self.read_most, self.failing_read);
        let writer = MemorySink::new(rt.alloc(), self.room, self.write_most, self.failing_write);
        let mut writer = writer.expect(rt, "memory");
        let answer = run_between(rt, &mut reader, &mut writer, &chain);
        (answer, writer)
    }

    /// Compares what the run of this number answers, and that it writes a part of the text, or exactly this.
    fn compare(
        &self,
        rt: &(impl Abort + AllocGlobal),
        answer: &Result<(), DryFault>,
        exactly: Option<&str>,
        number: u64,
    )
        requires { (0 < self.now.read_most) × (0 < self.now.write_most) }
    {
        let (answered, writer) = self.run(rt);
        assert_equal_at(rt, &answered, answer, &number);
        assert_begins_at(rt, WRITTEN.as_bytes(), writer.bytes(), number);
        if let Some(text) = exactly {
            assert_equal_at(rt, &writer.bytes(), &text.as_bytes(), &number);
        }
    }
}

#[test]
fn ends_may_move_single_bytes(rt: HostRuntime) {
    let ends = Ends {
        read_most: 1,
        failing_read: None,
        room: ROOM,
        write_most: 1,
        failing_write: None,
    };
    ends.compare(&rt, &Ok(()), Some(WRITTEN), 0);
}

#[test]
fn each_read_may_fail(rt: HostRuntime) {
    for call in 1..=7 {
        let ends = Ends {
            read_most: 5,
            failing_read: Some(call),
            room: ROOM,
            write_most: ROOM,
            failing_write: None,
        };
        ends.compare(&rt, &Err(DryFault::ReadFault), Some(""), call);
    }
}

#[test]
fn each_write_may_fail(rt: HostRuntime) {
    for call in 1..=14 {
        let ends = Ends {
            read_most: 5,
            failing_read: None,
            room: ROOM,
            write_most: 3,
            failing_write: Some(call),
        };
        ends.compare(&rt, &Err(DryFault::WriteFault), None, call);
    }
}

#[test]
fn a_full_writer_is_a_write_fault(rt: HostRuntime) {
    let ends = Ends {
        read_most: 5,
        failing_read: None,
        room: 10,
        write_most: 3,
        failing_write: None,
    };
    ends.compare(&rt, &Err(DryFault::WriteFault), Some("1000 0..3 "), 0);
}

/// Compares length and last lines of what is written of five thousand lines.
fn compare_end(rt: &impl Abort, written: &[u8]) {
    assert_equal(rt, &written.len(), &92_788);
    assert!(rt; written.ends_with(b"1000 4999..5000 61\nopen\n"));
}

/// The lines are `1000 0..1 61` to `1000 4999..5000 61` and `open`.
#[test]
fn five_thousand_lines_are_run(rt: HostRuntime) {
    let chain = chain_of("latency:latency=1").expect(&rt, "a short form");
    let read = "0 data 61\n".repeat(rt.alloc(), 5000).expect(&rt, "memory");
    let mut reader = MemorySource::new(read.into_bytes(), 4096, None);
    let writer = MemorySink::new(rt.alloc(), 200_000, 4096, None);
    let mut writer = writer.expect(&rt, "memory");
    run_between(&rt, &mut reader, &mut writer, &chain).expect(&rt, "a run");
    compare_end(&rt, writer.bytes());
}

/// A reader without end.
#[derive(Drop)]
struct Endless {
    given: u64,
}

impl Source for Endless {
    ghost use Rattle.std.specs.Prelude.{false, None};

    ghost failed = { λ _. false };

    ghost remaining = { λ _. None };

    fn read(&mut self, buffer: &mut [u8]) -> Result<usize, EndFault> {
        self.given = self.given.saturating_add(buffer.len() as u64);
        Ok(buffer.len())
    }
}

#[test]
fn an_endless_input_is_too_long(rt: HostRuntime) {
    let mut reader = Endless { given: 0 };
    let mut writer = MemorySink::new(rt.alloc(), ROOM, ROOM, None).expect(&rt, "memory");
    let answer = run_between(&rt, &mut reader, &mut writer, &Chain::new());
    assert_equal(&rt, &answer, &Err(DryFault::TooLong));
    assert_equal(&rt, &reader.given, &(MAX_INPUT as u64 + 1));
}
