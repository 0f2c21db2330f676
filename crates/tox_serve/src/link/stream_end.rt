//! The end of one stream, in both ways of serving: its log gets its last line, and after a fault both sockets are reset.
ghost use Rattle.std.specs.Prelude.{◌≡◌};
ghost use Rattle.tox_serve.specs.link.LinkEnds.{carried_before, carried_until_end};

use crate::link::end::Carried;
use crate::link::source_notes::SourceNotes;
use std::sync::Wait;
use tox_link::LinkFault;
use tox_sockets::{AbortCause, LinkSockets};
use tox_time::{Ending, Micros, Stream};

/// Ends a stream that its plan ended at a reading of its clock, after so many written bytes. `aborted`: why its link was aborted before
/// that, which breaks the stream. Returns what it carried.
pub(crate) fn end_stream<R: Wait>(
    stream: Stream,
    bytes: u64,
    reading: Micros,
    ending: Ending,
    aborted: Option<AbortCause>,
    notes: &SourceNotes<'_, R>,
) -> Carried
    ensures { result ≡ carried_until_end stream bytes reading ending aborted }
{
    let carried = Carried::until_end(stream, bytes, reading, ending, aborted);
    notes.end(&carried);
    carried
}

/// Breaks a stream off by a fault. Both sockets are reset, so that the other direction ends too. Refused memory or a refused thread
/// breaks that one as well. Returns what the stream carried before the fault.
pub(crate) fn break_stream<R: Wait>(
    link: &LinkSockets,
    stream: Stream,
    fault: &LinkFault,
    notes: &SourceNotes<'_, R>,
) -> Carried
    ensures { result ≡ carried_before stream fault.now }
{
    match fault {
        LinkFault::WriteFault(_) => link.ends_of(stream).reset(),
        LinkFault::SpawnRefused(_) => link.abort(AbortCause::Thread),
        LinkFault::OutOfMemory(_) => link.abort(AbortCause::Memory),
    }
    let carried = Carried::until_fault(stream, fault);
    notes.end(&carried);
    carried
}
