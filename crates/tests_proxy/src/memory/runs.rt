//! Runs, picks, forecasts and checks, from text to text, with too little memory.
ghost use Rattle.std.specs.Prelude.{◌≡◌, false};

use crate::memory::given::{Given, SCRIPT};
use crate::memory::refusing::{Call, assert_refused, tried_of};
use std::alloc::Global;
use std::process::Abort;
use tests_support::{Scarcity, Tried};
use tox_proxy::{
    DryFault, PrintMigratedFault, PrintPickFault, Question, Setup, dry_run, find_proxy,
    print_check, print_forecast, print_migrated, print_pick,
};
use tox_script::ScriptFault;
use tox_time::{MemorySink, MemorySource, Sink, Source, Stream};

const TEXT: &str = "0 data 616263\n5 eof\n";

const RESULT: &str = "1000 0..3 616263\nclosed 1000\n";

const PICK: &str = "\
proxy a listen localhost:0 upstream h:1 enabled
0 applied latency:latency=100,jitter=0,toxicity=1000 latency_downstream
";

const FORECAST: &str = "\
1 upstream rule 1 applied
1 downstream rule 1 applied 0
2 upstream rule 1 applied
2 downstream rule 1 applied 0
rule 1 toxic 1 applied 2 of 2 latency_downstream
";

const CHECK: &str = "\
rule 1 never applies: no proxy shpo (shop?)
rule 3 applies to 1 only: connections 2 on meet rule 2
1 proxies, 3 rules, 0 toxics
";

const MIGRATED: &str = "\
lanes = 16
version = 2

[[rule]]
first = 1
proxy = \"a\"

[[rule.toxic]]
type = \"latency\"

[rule.toxic.attributes]
latency = 100
";

const QUESTION: Question<'static> = Question {
    links: 2,
    seed: 1,
    stream: None,
    named: None,
    json: false,
};

/// A call that writes a text.
#[derive(Drop)]
pub enum Run {
    Dry,
    Pick,
    Forecast,
    Check,
    Migration,
}

/// What a pick of connection 1 downstream returns.
fn pick<W: Sink>(alloc: Global, writer: &mut W, setup: &Setup) -> Tried
    requires { W.failed writer.old ≡ false }
{
    match find_proxy(&setup.proxies, "a") {
        Some(proxy) => tried_of(
            print_pick(
                alloc,
                writer,
                proxy,
                &setup.script,
                1,
                Stream::Downstream,
                1,
            ),
            &PrintPickFault::OutOfMemory,
        ),
        None => Tried::Wrong,
    }
}

impl Run {
    /// The text that it writes with ample memory.
    fn text(&self) -> &'static str {
        match self {
            Run::Dry => RESULT,
            Run::Pick => PICK,
            Run::Forecast => FORECAST,
            Run::Check => CHECK,
            Run::Migration => MIGRATED,
        }
    }

    /// What it returns with the memory that is left.
    fn tried<R: Source, W: Sink>(
        &self,
        alloc: Global,
        reader: &mut R,
        writer: &mut W,
        given: &Given,
    ) -> Tried
        requires reads { R.failed reader.old ≡ false }
        requires works { W.failed writer.old ≡ false }
    {
        match self {
            Run::Dry => tried_of(
                dry_run(alloc, reader, writer, &given.latency, &given.words),
                &DryFault::OutOfMemory,
            ),
            Run::Pick => pick(alloc, writer, &given.setup),
            Run::Forecast => tried_of(
                print_forecast(alloc, writer, "a", &given.setup.script, &QUESTION),
                &PrintPickFault::OutOfMemory,
            ),
            Run::Check => tried_of(
                print_check(alloc, writer, &given.mistyped, true),
                &PrintPickFault::OutOfMemory,
            ),
            Run::Migration => tried_of(
                print_migrated(alloc, writer, SCRIPT.as_bytes()),
                &PrintMigratedFault::Script(ScriptFault::OutOfMemory),
            ),
        }
    }

    /// Makes the call with about so many times 16 bytes. A refused one has written nothing.
    pub fn attempt(
        &self,
        rt: &(impl Abort + AllocGlobal),
        given: &Given,
        scarcity: &mut Scarcity,
        sixteens: usize,
    ) -> Tried {
        let text = TEXT.as_bytes().to_vec(rt.alloc()).expect(rt, "memory");
        let mut reader = MemorySource::new(text, 64, None);
        let mut writer = MemorySink::new(rt.alloc(), 200, 64, None).expect(rt, "memory");
        scarcity.leave(rt.alloc(), sixteens).expect(rt, "memory");
        let tried = self.tried(rt.alloc(), &mut reader, &mut writer, given);
        scarcity.end();
        tried.writing(writer.bytes(), self.text())
    }
}

#[test]
fn a_dry_run_is_refused_memory(rt: HostRuntime) {
    assert_refused(&rt, &[Call::Run(Run::Dry)]);
}

#[test]
fn a_pick_is_refused_memory(rt: HostRuntime) {
    assert_refused(&rt, &[Call::Run(Run::Pick)]);
}

#[test]
fn a_forecast_is_refused_memory(rt: HostRuntime) {
    assert_refused(&rt, &[Call::Run(Run::Forecast)]);
}

#[test]
fn a_check_is_refused_memory(rt: HostRuntime) {
    assert_refused(&rt, &[Call::Run(Run::Check)]);
}

#[test]
fn a_printed_migration_is_refused_memory(rt: HostRuntime) {
    assert_refused(&rt, &[Call::Run(Run::Migration)]);
}
