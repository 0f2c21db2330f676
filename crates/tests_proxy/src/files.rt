//! Files that a test writes.
use std::env;
use std::process::Abort;
use std::rt::Env;

/// The name of a file of the test's own, which runs in the process of this id.
pub fn path_of(rt: &(impl Abort + Env + AllocGlobal), id: u32, file: &str) -> String {
    let folder = env::temp_dir(rt).expect(rt, "a folder");
    let folder = folder.as_str();
    format!(in rt.alloc(); "{folder}/toxi-{id}-{file}").expect(rt, "memory")
}
