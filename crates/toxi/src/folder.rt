//! A folder that a command makes for its files.
use std::fs;
use std::rt::Files;
use tox_explain::FolderRefusal;

/// Makes a folder, and its parents. One that is there is taken if it is empty.
pub fn make_folder<R: Files + AllocGlobal + Copy>(
    rt: &R,
    folder: &str,
) -> Result<(), FolderRefusal> {
    fs::create_dir_all(rt, folder)?;
    match fs::read_dir(rt, folder)?.next() {
        Some(_) => Err(FolderRefusal::NotEmpty),
        None => Ok(()),
    }
}
