//! Lists and files, read with too little memory.
use crate::comparing::assert_equal_at;
use crate::files::path_of;
use crate::memory::refusing::{Call, assert_refused, print_refused, tried_of, without_memory};
use std::alloc::Global;
use std::process::Abort;
use std::rt::Files;
use std::{fs, process};
use tests_support::{Tried, at};
use tox_config::{ConfigFault, read_populate};
use tox_proxy::{FileFault, read_file};
use tox_script::{ScriptFault, migrate, read_script};
use tox_time::{ArrivalFault, Arrivals, Stream};
use tox_words::{Words, WordsFault};

const CONFIG: &str =
    "[{\"name\":\"a\",\"upstream\":\"h:1\"},{\"name\":\"b\",\"upstream\":\"h:2\"}]";

const SCRIPT: &str = "\
[[rule]]
proxy = \"a\"
first = 2

[[rule.toxic]]
type = \"latency\"
attributes = { latency = 100 }
";

/// A call that reads a value.
#[derive(Drop)]
pub enum Value<'a> {
    ListedWords,
    WrittenWords,
    SeededWords,
    Config,
    Script,
    Migration,
    /// The file of this name.
    File(&'a str),
}

impl Value<'_> {
    /// What it returns with the memory that is left.
    pub fn tried(&self, rt: &impl Files, alloc: Global) -> Tried {
        match self {
            Value::Config => tried_of(
                read_populate(alloc, CONFIG.as_bytes()),
                &ConfigFault::OutOfMemory,
            ),
            Value::Script => tried_of(
                read_script(alloc, SCRIPT.as_bytes()),
                &ScriptFault::OutOfMemory,
            ),
            Value::Migration => {
                tried_of(migrate(alloc, SCRIPT.as_bytes()), &ScriptFault::OutOfMemory)
            }
            Value::File(name) => tried_of(read_file(rt, alloc, name), &FileFault::OutOfMemory),
            Value::ListedWords | Value::WrittenWords | Value::SeededWords => {
                tried_of(self.words(alloc), &WordsFault::OutOfMemory)
            }
        }
    }

    /// The words of a list, a text or a seed.
    fn words(&self, alloc: Global) -> Result<Words, WordsFault> {
        match self {
            Value::ListedWords => Words::from_list(alloc, &[1, 2, 3]),
            Value::WrittenWords => Words::from_text(alloc, "1,2,3"),
            _ => Words::from_seed(alloc, 1, 1, Stream::Upstream),
        }
    }
}

#[test]
fn words_are_refused_memory(rt: HostRuntime) {
    assert_refused(
        &rt,
        &[
            Call::Value(Value::ListedWords),
            Call::Value(Value::WrittenWords),
            Call::Value(Value::SeededWords),
        ],
    );
}

#[test]
fn a_migration_is_refused_memory(rt: HostRuntime) {
    assert_refused(&rt, &[Call::Value(Value::Migration)]);
}

/// The file is written before and removed after.
#[test]
fn files_are_refused_memory(rt: HostRuntime) {
    let name = path_of(&rt, process::id(rt.process()), "memory");
    fs::write(&rt, name.as_str(), CONFIG).expect(&rt, "a file");
    assert_refused(
        &rt,
        &[
            Call::Value(Value::Config),
            Call::Value(Value::Script),
            Call::Value(Value::File(name.as_str())),
        ],
    );
    fs::remove_file(&rt, name.as_str()).expect(&rt, "a file");
}

/// What is done with arrivals at 1 ms, and what it answers.
enum Step {
    Push(Result<(), ArrivalFault>),
    Eof(Result<(), ArrivalFault>),
    Len(usize),
}

/// The steps without memory.
const REFUSED: &[Step] = &[
    Step::Push(Err(ArrivalFault::OutOfMemory)),
    Step::Eof(Err(ArrivalFault::OutOfMemory)),
];

/// The steps that follow with ample memory.
const TAKEN: &[Step] = &[
    Step::Len(0),
    Step::Push(Ok(())),
    Step::Eof(Ok(())),
    Step::Len(2),
];

fn follow(rt: &impl Abort, arrivals: &mut Arrivals, steps: &[Step]) {
    for (nth, step) in steps.iter().enumerate() {
        match step {
            Step::Push(answer) => assert_equal_at(rt, &arrivals.push(3, at(1000)), answer, &nth),
            Step::Eof(answer) => assert_equal_at(rt, &arrivals.eof(at(1000)), answer, &nth),
            Step::Len(len) => assert_equal_at(rt, &arrivals.items().len(), len, &nth),
        }
    }
}

#[test]
fn arrivals_are_refused_memory(rt: HostRuntime) {
    let mut arrivals = Arrivals::new(rt.alloc());
    let mut scarcity = without_memory(&rt);
    follow(&rt, &mut arrivals, REFUSED);
    scarcity.end();
    follow(&rt, &mut arrivals, TAKEN);
    print_refused(&rt, 0, 1);
}
