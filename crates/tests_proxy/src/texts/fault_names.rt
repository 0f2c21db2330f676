//! What is printed of the faults that no other test shows.
use crate::comparing::assert_equal;
use std::fmt::Display;
use std::process::Abort;
use tox_config::ConfigFault;
use tox_defs::{ShortFault, TooManyToxics};
use tox_network::StepFault;
use tox_proxy::{
    DryFault, FileFault, PickFault, PrintMigratedFault, PrintPickFault, ServeFault, ToxicsFault,
    WaitFault, WriteFault,
};
use tox_script::ScriptFault;
use tox_time::ArrivalFault;
use tox_words::WordsFault;

/// A fault.
enum Fault {
    Arrival(ArrivalFault),
    Words(WordsFault),
    Config(ConfigFault),
    File(FileFault<'static>),
    Script(ScriptFault),
    PrintMigrated(PrintMigratedFault),
    Short(ShortFault),
    Toxics(ToxicsFault),
    Step(StepFault),
    Dry(DryFault),
    PrintPick(PrintPickFault),
    Pick(PickFault<'static>),
    Serve(ServeFault<'static>),
    Wait(WaitFault<'static>),
    TooManyToxics(TooManyToxics),
    Write(WriteFault),
}

/// Compares what is printed of a fault of one kind.
fn compare_printed(rt: &(impl Abort + AllocGlobal), fault: &impl Display, name: &str) {
    let printed = format!(in rt.alloc(); "{fault}").expect(rt, "memory");
    assert_equal(rt, &printed.as_str(), &name);
}

/// Compares what is printed of a fault of any kind.
fn compare_one(rt: &(impl Abort + AllocGlobal), fault: &Fault, name: &str) {
    match fault {
        Fault::Arrival(fault) => compare_printed(rt, fault, name),
        Fault::Words(fault) => compare_printed(rt, fault, name),
        Fault::Config(fault) => compare_printed(rt, fault, name),
        Fault::File(fault) => compare_printed(rt, fault, name),
        Fault::Script(fault) => compare_printed(rt, fault, name),
        Fault::PrintMigrated(fault) => compare_printed(rt, fault, name),
        Fault::Short(fault) => compare_printed(rt, fault, name),
        Fault::Toxics(fault) => compare_printed(rt, fault, name),
        Fault::Step(fault) => compare_printed(rt, fault, name),
        Fault::Dry(fault) => compare_printed(rt, fault, name),
        Fault::PrintPick(fault) => compare_printed(rt, fault, name),
        Fault::Pick(fault) => compare_printed(rt, fault, name),
        Fault::Serve(fault) => compare_printed(rt, fault, name),
        Fault::Wait(fault) => compare_printed(rt, fault, name),
        Fault::TooManyToxics(fault) => compare_printed(rt, fault, name),
        Fault::Write(fault) => compare_printed(rt, fault, name),
    }
}

/// Compares what is printed of each of these faults.
fn compare(rt: &(impl Abort + AllocGlobal), faults: &[(Fault, &str)]) {
    for (fault, name) in faults {
        compare_one(rt, fault, name);
    }
}

const ARRIVALS_AND_WORDS: &[(Fault, &str)] = &[
    (Fault::Arrival(ArrivalFault::OutOfMemory), "A0 OutOfMemory"),
    (
        Fault::Arrival(ArrivalFault::TooManyBytes),
        "A3 TooManyBytes",
    ),
    (Fault::Words(WordsFault::OutOfMemory), "W0 OutOfMemory"),
    (Fault::Words(WordsFault::NoWords), "W1 NoWords"),
    (Fault::Words(WordsFault::TooMany), "W2 TooMany"),
    (Fault::Words(WordsFault::BadWord(4)), "W3 BadWord 4"),
];

#[test]
fn faults_of_arrivals_and_words_print_their_names(rt: HostRuntime) {
    compare(&rt, ARRIVALS_AND_WORDS);
}

const FILES: &[(Fault, &str)] = &[
    (Fault::Config(ConfigFault::OutOfMemory), "C0 OutOfMemory"),
    (Fault::Config(ConfigFault::TooMany(64)), "C8 TooMany 64"),
    (Fault::File(FileFault::OutOfMemory), "P0 OutOfMemory"),
    (Fault::File(FileFault::TooLong("a")), "P2 FileTooLong a"),
];

#[test]
fn faults_of_files_print_their_names(rt: HostRuntime) {
    compare(&rt, FILES);
}

const SCRIPTS: &[(Fault, &str)] = &[
    (Fault::Script(ScriptFault::OutOfMemory), "S0 OutOfMemory"),
    (
        Fault::PrintMigrated(PrintMigratedFault::Script(ScriptFault::AlreadyVersion2)),
        "M1 AlreadyVersion2",
    ),
    (
        Fault::PrintMigrated(PrintMigratedFault::WriteFault),
        "L4 WriteFault",
    ),
];

#[test]
fn faults_of_scripts_print_their_names(rt: HostRuntime) {
    compare(&rt, SCRIPTS);
}

const CHAINS: &[(Fault, &str)] = &[
    (Fault::Short(ShortFault::DoubleKey), "Q2 DoubleKey"),
    (Fault::TooManyToxics(TooManyToxics), "S9 TooManyToxics"),
    (
        Fault::Toxics(ToxicsFault::TooMany(17)),
        "S9 TooManyToxics 17",
    ),
    (Fault::Step(StepFault::OutOfMemory), "N0 OutOfMemory"),
    (Fault::Step(StepFault::NotPossible), "N1 NotPossible"),
];

#[test]
fn faults_of_chains_print_their_names(rt: HostRuntime) {
    compare(&rt, CHAINS);
}

const RUNS: &[(Fault, &str)] = &[
    (Fault::Dry(DryFault::OutOfMemory), "L0 OutOfMemory"),
    (Fault::Dry(DryFault::TooLong), "L2 TooLong"),
    (Fault::Dry(DryFault::ReadFault), "L3 ReadFault"),
    (Fault::Dry(DryFault::WriteFault), "L4 WriteFault"),
    (Fault::Write(WriteFault), "L4 WriteFault"),
    (
        Fault::PrintPick(PrintPickFault::OutOfMemory),
        "W0 OutOfMemory",
    ),
    (
        Fault::PrintPick(PrintPickFault::WriteFault),
        "L4 WriteFault",
    ),
    (
        Fault::Serve(ServeFault::ReadyRefused(None)),
        "P4 ListenRefused --ready",
    ),
    (Fault::Wait(WaitFault::OutOfMemory), "L0 OutOfMemory"),
    (Fault::Wait(WaitFault::SpawnRefused), "F1 SpawnRefused"),
];

#[test]
fn faults_of_runs_print_their_names(rt: HostRuntime) {
    compare(&rt, RUNS);
}

/// A fault is one line, whatever it names.
const LINES: &[(Fault, &str)] = &[
    (
        Fault::File(FileFault::Unreadable("a\n")),
        "P1 FileFault a\\x0a",
    ),
    (
        Fault::File(FileFault::TooLong("\x1b[31m")),
        "P2 FileTooLong \\x1b[31m",
    ),
    (
        Fault::Pick(PickFault::UnknownProxy("\x7fé\\")),
        "P3 UnknownProxy \\x7fé\\",
    ),
    (
        Fault::Pick(PickFault::UnknownProxy("\u{9b}\u{202e}\u{202f}")),
        "P3 UnknownProxy \\x9b\\u202e\u{202f}",
    ),
    (
        Fault::Serve(ServeFault::ListenRefused("the\nshop", None)),
        "P4 ListenRefused the\\x0ashop",
    ),
    (
        Fault::Wait(WaitFault::NotReady("the\nshop")),
        "P8 NotReady the\\x0ashop",
    ),
    (
        Fault::Wait(WaitFault::BadAddress("\u{202e}:1")),
        "P9 BadAddress \\u202e:1",
    ),
];

#[test]
fn faults_keep_to_their_line(rt: HostRuntime) {
    compare(&rt, LINES);
}
