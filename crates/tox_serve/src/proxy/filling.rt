//! How full the book of a proxy is that stops only at a full one.
ghost use Rattle.std.specs.Prelude.{◌≡◌};
ghost use Rattle.tox_serve.specs.proxy.Filling.{fill_of};

use crate::run::ServeRun;
use std::sync::Wait;
use tox_words::MAX_CONNECTIONS;

/// The connection with which a full book is announced.
const NEARLY_ALL: u64 = 900_000;

/// What is reported of a book.
#[derive(Clone, Copy, Debug, PartialEq, Eq)]
pub(crate) enum Fill {
    /// Nine tenths of its connections were taken.
    Nearly,
    /// All were.
    Full,
}

/// What is reported once a connection has this number. With a limit of links nothing is, since the end is expected then.
fn fill_of(links: Option<u64>, number: u64) -> Option<Fill>
    ensures { result ≡ fill_of links number }
{
    match links {
        Some(_) => None,
        None if number == NEARLY_ALL => Some(Fill::Nearly),
        None if number == MAX_CONNECTIONS => Some(Fill::Full),
        None => None,
    }
}

/// Reports that the proxy at a place has a nearly full or a full book, if the connection with this number makes it so.
pub(crate) fn note_fill<R: Wait>(rt: &R, run: &ServeRun<'_>, place: usize, number: u64) {
    if let Some(fill) = fill_of(run.options.links, number) {
        run.notices.note_fill(rt, place, fill);
    }
}
