//! The names of the files of logs.
ghost use Rattle.std.specs.Prelude.{◌≡◌, ◌++◌, string_bytes, IfOk};
ghost use Rattle.std.specs.List.{list_all};
ghost use Rattle.tox_log.specs.files.FileName.{is_plain_byte, log_name, stream_part, suits_file};

use crate::LoggedLink;
use std::alloc::{AllocError, Global};

/// The most bytes of a proxy's name that stands in the name of a file.
const MAX_NAME: usize = 64;

/// The name of the file of a stream's log. A proxy whose name doesn't suit is called by its place among all proxies, from 0.
pub(crate) fn file_name(
    alloc: Global,
    place: usize,
    link: &LoggedLink<'_>,
) -> Result<String, AllocError>
    ensures { IfOk result (λ name. string_bytes name
        ≡ log_name link.now.proxy.now place link.now.number link.now.stream) }
{
    if suits(link.proxy) {
        return name_of(alloc, link.proxy, link);
    }
    let part = format!(in alloc; "@{place}")?;
    name_of(alloc, &part, link)
}

/// The name of the file, with what stands in it for the proxy.
fn name_of(alloc: Global, part: &str, link: &LoggedLink<'_>) -> Result<String, AllocError>
    ensures { IfOk result (λ name. string_bytes name
        ≡ part.now ++ stream_part link.now.number link.now.stream) }
{
    let (number, stream) = (link.number, link.stream.name());
    format!(in alloc; "{part}-{number}-{stream}.log")
}

/// Whether a proxy's name may stand in the name of a file: 1 to 64 ASCII letters, digits, `_` and `-`.
fn suits(name: &str) -> bool
    ensures { result ≡ suits_file name.now }
{
    !name.is_empty() && name.len() <= MAX_NAME && are_plain(name)
}

/// Whether a name has ASCII letters, digits, `_` and `-` alone.
fn are_plain(name: &str) -> bool
    ensures { result ≡ list_all is_plain_byte name.now }
{
    name.bytes().all(is_plain)
}

fn is_plain(byte: u8) -> bool
    ensures { result ≡ is_plain_byte byte }
{
    byte.is_ascii_alphanumeric() || byte == b'_' || byte == b'-'
}
