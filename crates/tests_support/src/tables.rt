//! When each byte was delivered.
use std::alloc::{AllocError, Global};
use tox_time::SliceList;

/// The instant of each byte, in microseconds.
pub fn table_of(alloc: Global, slices: &SliceList) -> Result<Vec<u64>, AllocError> {
    let mut table = Vec::new(alloc);
    for slice in slices.as_slice() {
        for _ in slice.span.start..slice.span.stop {
            table.push(slice.instant.get())?;
        }
    }
    Ok(table)
}
