//! Picks whose files are in memory, and files of the longest length.
use crate::comparing::{assert_equal, assert_equal_at};
use crate::files::path_of;
use crate::texts::written::{CONFIG, MET, ROOM, SCRIPT};
use std::fs::File;
use std::process::Abort;
use std::rt::Files;
use std::{fs, process};
use tox_proxy::{FileFault, MAX_INPUT, MemoryFiles, PickRequest, read_file};
use tox_time::MemorySink;

/// A config and a script of the files, and what is printed by them of connection 3 downstream, or the fault.
const PICKS: &[(&str, &str, &str)] = &[
    ("proxies", "script", MET),
    ("proxies", "none", "P1 FileFault none"),
    ("none", "none", "P1 FileFault none"),
    ("script", "none", "C1 NotJson"),
    ("json", "none", "C1 NotJson"),
    ("proxies", "toml", "S1 NotToml"),
];

/// What is printed of connection 3 downstream by two of the files, or the fault.
fn answer_of(
    rt: &(impl Abort + AllocGlobal),
    files: &MemoryFiles<'_>,
    config: &str,
    script: &str,
) -> String {
    let request = PickRequest {
        config,
        script,
        proxy: "a",
        conn: 3,
        stream: "downstream",
        seed: 1,
    };
    let mut writer = MemorySink::new(rt.alloc(), ROOM, ROOM, None).expect(rt, "memory");
    let answer = match request.answer(files, rt.alloc(), &mut writer) {
        Ok(()) => String::from_utf8_lossy(rt.alloc(), writer.bytes()),
        Err(fault) => format!(in rt.alloc(); "{fault}"),
    };
    answer.expect(rt, "memory")
}

/// Compares what the files answer to each pick.
fn compare_picks(rt: &(impl Abort + AllocGlobal), files: &MemoryFiles<'_>) {
    for (config, script, want) in PICKS {
        let answer = answer_of(rt, files, config, script);
        assert_equal_at(rt, &answer.as_str(), want, &(*config, *script));
    }
}

/// Two of the files aren't UTF-8.
#[test]
fn files_in_memory_answer_too(rt: HostRuntime) {
    let files = [
        ("proxies", CONFIG.as_bytes()),
        ("script", SCRIPT.as_bytes()),
        ("proxies", b"[]".as_slice()),
        ("json", b"[\"\xff\"]".as_slice()),
        ("toml", b"#\xff".as_slice()),
    ];
    compare_picks(&rt, &MemoryFiles { files: &files });
}

/// Compares the length of a file that is read, or why it is refused.
fn compare(
    rt: &(impl Abort + Files + AllocGlobal),
    name: &str,
    want: &Result<usize, FileFault<'_>>,
) {
    let answer = match read_file(rt, rt.alloc(), name) {
        Ok(bytes) => Ok(bytes.len()),
        Err(fault) => Err(fault),
    };
    assert_equal(rt, &answer, want);
}

#[test]
fn a_file_has_a_longest_length(rt: HostRuntime) {
    let path = path_of(&rt, process::id(rt.process()), "long");
    let name = path.as_str();
    let file = File::create(&rt, name).expect(&rt, "a file");
    file.set_len(MAX_INPUT as u64).expect(&rt, "a length");
    compare(&rt, name, &Ok(MAX_INPUT));
    file.set_len(MAX_INPUT as u64 + 1).expect(&rt, "a length");
    compare(&rt, name, &Err(FileFault::TooLong(name)));
    fs::remove_file(&rt, name).expect(&rt, "a file");
}
