//! Texts whose writer fails.
ghost use Rattle.std.specs.Prelude.{◌≡◌, ◌<◌, false};

use crate::comparing::{assert_equal, assert_equal_at};
use crate::setups::setup_of;
use std::process::Abort;
use tests_support::chain_of;
use tox_compile::{Plan, compile};
use tox_proxy::{
    PrintMigratedFault, PrintPickFault, Setup, WriteFault, find_proxy, print_migrated, print_pick,
    print_plan,
};
use tox_time::{MemorySink, Sink, Stream};
use tox_words::Words;

/// Room for any text here.
pub const ROOM: usize = 1000;

pub const CONFIG: &str = "[{\"name\":\"a\",\"upstream\":\"localhost:1\"}]";

pub const SCRIPT: &str = "\
[[rule]]
proxy = \"a\"
first = 2
last = 3

[[rule.toxic]]
type = \"latency\"
attributes = { latency = 100 }

[[rule.toxic]]
type = \"limit_data\"
toxicity = 0
attributes = { bytes = 7 }
";

/// What connections 2 and 3 meet downstream.
pub const MET: &str = "\
proxy a listen localhost:0 upstream localhost:1 enabled
0 applied latency:latency=100,jitter=0,toxicity=1000 latency_downstream
1 skipped limit_data:bytes=7,toxicity=0 limit_data_downstream
";

/// Stops the test unless a text begins with what was written before the call of this number.
pub fn assert_begins_at(rt: &impl Abort, text: &[u8], written: &[u8], call: u64) {
    assert!(rt; text.starts_with(written), "at write {call}");
}

/// What the printing of connection 3 downstream answers.
fn print_third<W: Sink>(
    rt: &(impl Abort + AllocGlobal),
    writer: &mut W,
    setup: &Setup,
) -> Result<(), PrintPickFault>
    requires { W.failed writer.old ≡ false }
{
    let proxy = find_proxy(&setup.proxies, "a").expect(rt, "proxy a");
    print_pick(
        rt.alloc(),
        writer,
        proxy,
        &setup.script,
        3,
        Stream::Downstream,
        1,
    )
}

/// Compares what is printed of connection 3 downstream to a writer that takes `most` bytes a call.
pub fn compare_third(
    rt: &(impl Abort + AllocGlobal),
    setup: &Setup,
    most: usize,
    failing_call: Option<u64>,
)
    requires { 0 < most }
{
    let writer = MemorySink::new(rt.alloc(), ROOM, most, failing_call);
    let mut writer = writer.expect(rt, "memory");
    assert_equal(rt, &print_third(rt, &mut writer, setup), &Ok(()));
    assert_equal(rt, &writer.bytes(), &MET.as_bytes());
}

/// What is printed of the script's migration.
pub fn migrated(rt: &(impl Abort + AllocGlobal)) -> MemorySink {
    let mut writer = MemorySink::new(rt.alloc(), ROOM, ROOM, None).expect(rt, "memory");
    print_migrated(rt.alloc(), &mut writer, SCRIPT.as_bytes()).expect(rt, "a migration");
    writer
}

/// The plan of a limit and a latency.
fn plan(rt: &(impl Abort + AllocGlobal)) -> Plan {
    let words = Words::from_list(rt.alloc(), &[0]).expect(rt, "words");
    let chain = chain_of("limit_data:bytes=3 latency:latency=1").expect(rt, "short forms");
    compile(&chain, &words)
}

/// What is written.
#[derive(Drop)]
enum Text {
    Plan(Plan),
    Pick(Setup),
    Migration,
}

impl Text {
    /// Compares what is answered where the call of this number fails.
    fn compare<W: Sink>(&self, rt: &(impl Abort + AllocGlobal), writer: &mut W, call: u64)
        requires { W.failed writer.old ≡ false }
    {
        match self {
            Text::Plan(plan) => {
                assert_equal_at(rt, &print_plan(writer, plan), &Err(WriteFault), &call)
            }
            Text::Pick(setup) => assert_equal_at(
                rt,
                &print_third(rt, writer, setup),
                &Err(PrintPickFault::WriteFault),
                &call,
            ),
            Text::Migration => assert_equal_at(
                rt,
                &print_migrated(rt.alloc(), writer, SCRIPT.as_bytes()),
                &Err(PrintMigratedFault::WriteFault),
                &call,
            ),
        }
    }

    /// Lets each of the first calls fail, in which the writer takes `most` bytes. A part of the text is written before.
    fn fails_at_each(&self, rt: &(impl Abort + AllocGlobal), text: &[u8], most: usize, calls: u64)
        requires { 0 < most }
    {
        for call in 1..=calls {
            let writer = MemorySink::new(rt.alloc(), ROOM, most, Some(call));
            let mut writer = writer.expect(rt, "memory");
            self.compare(rt, &mut writer, call);
            assert_begins_at(rt, text, writer.bytes(), call);
        }
    }
}

#[test]
fn each_write_of_a_plan_may_fail(rt: HostRuntime) {
    Text::Plan(plan(&rt)).fails_at_each(&rt, b"limit 3\ndelay 1\n", 3, 6);
}

#[test]
fn each_write_of_a_pick_may_fail(rt: HostRuntime) {
    let setup = setup_of(&rt, CONFIG, SCRIPT.as_bytes());
    Text::Pick(setup).fails_at_each(&rt, MET.as_bytes(), 10, 19);
}

/// Call 20 is one too many to fail.
#[test]
fn a_pick_takes_nineteen_writes(rt: HostRuntime) {
    compare_third(&rt, &setup_of(&rt, CONFIG, SCRIPT.as_bytes()), 10, Some(20));
}

#[test]
fn each_write_of_a_migrated_script_may_fail(rt: HostRuntime) {
    let whole = migrated(&rt);
    Text::Migration.fails_at_each(&rt, whole.bytes(), 40, 5);
}
