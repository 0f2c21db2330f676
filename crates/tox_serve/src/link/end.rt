//! How a served link ended, and what the book keeps of it.
ghost use Rattle.std.specs.Prelude.{◌≡◌};
ghost use Rattle.tox_time.specs.declared.streams.stream.Stream.TheVariants as StreamOf;
ghost use Rattle.tox_serve.specs.link.LinkEnds.{broken_link, broken_side, carried_before, carried_link_end, carried_until_end, cause_of, end_unless_aborted, ending_of, is_refused, last_line_of, nothing_carried, settled, side_end};

use tox_link::{Book, LinkFault};
use tox_log::{BreakCause, LastLine};
use tox_sockets::AbortCause;
use tox_time::{Ending, Micros, Stream};

/// How one direction ended.
#[derive(Clone, Copy)]
pub(crate) enum StreamEnd {
    /// Its plan ended it so at this reading of its clock.
    Ended(Micros, Ending),
    Broken(BreakCause),
}

/// What one direction carried.
#[derive(Clone, Copy)]
pub(crate) struct Carried {
    pub(crate) stream: Stream,
    pub(crate) bytes: u64,
    pub(crate) end: StreamEnd,
}

/// The report of one side of a link: the bytes written, and the ending. None: it is broken.
#[derive(Clone, Copy)]
pub(crate) struct SideEnd {
    pub(crate) bytes: u64,
    pub(crate) ending: Option<Ending>,
}

/// The report of a link.
#[derive(Clone, Copy)]
pub(crate) struct LinkEnd {
    pub(crate) number: u64,
    pub(crate) upstream: SideEnd,
    pub(crate) downstream: SideEnd,
}

/// Why a stream is broken whose link is aborted.
fn cause_of(abort: AbortCause) -> BreakCause
    ensures { result ≡ cause_of abort }
{
    match abort {
        AbortCause::Stopped => BreakCause::Stopped,
        AbortCause::Memory => BreakCause::Memory,
        AbortCause::Thread => BreakCause::Thread,
    }
}

impl StreamEnd {
    /// The end of a stream that its plan ended at a reading of its clock. An abort of its link before that breaks it.
    pub(crate) fn unless_aborted(
        aborted: Option<AbortCause>,
        reading: Micros,
        ending: Ending,
    ) -> StreamEnd
        ensures { result ≡ end_unless_aborted aborted reading ending }
    {
        match aborted {
            Some(abort) => StreamEnd::Broken(cause_of(abort)),
            None => StreamEnd::Ended(reading, ending),
        }
    }
}

impl Carried {
    /// What a stream carried that its plan ended at a reading of its clock. An abort of its link before that breaks it.
    pub(crate) fn until_end(
        stream: Stream,
        bytes: u64,
        reading: Micros,
        ending: Ending,
        aborted: Option<AbortCause>,
    ) -> Carried
        ensures { result ≡ carried_until_end stream bytes reading ending aborted }
    {
        Carried {
            stream,
            bytes,
            end: StreamEnd::unless_aborted(aborted, reading, ending),
        }
    }

    /// What a stream carried before a fault.
    pub(crate) fn until_fault(stream: Stream, fault: &LinkFault) -> Carried
        ensures { result ≡ carried_before stream fault.now }
    {
        let cause = match fault {
            LinkFault::WriteFault(_) => BreakCause::Write,
            LinkFault::SpawnRefused(_) => BreakCause::Thread,
            LinkFault::OutOfMemory(_) => BreakCause::Memory,
        };
        Carried {
            stream,
            bytes: fault.written(),
            end: StreamEnd::Broken(cause),
        }
    }

    fn is_refused(&self) -> bool
        ensures { result ≡ is_refused self.now.end }
    {
        match self.end {
            StreamEnd::Broken(BreakCause::Memory | BreakCause::Thread) => true,
            StreamEnd::Ended(..) | StreamEnd::Broken(_) => false,
        }
    }

    fn ending(&self) -> Option<Ending>
        ensures { result ≡ ending_of self.now.end }
    {
        match self.end {
            StreamEnd::Ended(_, ending) => Some(ending),
            StreamEnd::Broken(_) => None,
        }
    }

    /// The last line of the stream's log.
    pub(crate) fn last_line(&self) -> LastLine
        ensures { result ≡ last_line_of self.now.bytes self.now.end }
    {
        match self.end {
            StreamEnd::Ended(reading, ending) => LastLine::Ended(reading, ending),
            StreamEnd::Broken(cause) => LastLine::Broken(cause, self.bytes),
        }
    }

    fn broken(&self) -> SideEnd
        ensures { result ≡ broken_side self.now }
    {
        SideEnd {
            bytes: self.bytes,
            ending: None,
        }
    }

    fn side_end(&self) -> SideEnd
        ensures { result ≡ side_end self.now }
    {
        SideEnd {
            bytes: self.bytes,
            ending: self.ending(),
        }
    }
}

impl SideEnd {
    /// A broken side that carried nothing.
    fn nothing_carried() -> SideEnd
        ensures { result ≡ nothing_carried }
    {
        SideEnd {
            bytes: 0,
            ending: None,
        }
    }
}

impl LinkEnd {
    /// A link that carried nothing: its upstream wasn't reached, or memory or a thread was refused.
    pub(crate) fn broken(number: u64) -> LinkEnd
        ensures { result ≡ broken_link number }
    {
        LinkEnd {
            number,
            upstream: SideEnd::nothing_carried(),
            downstream: SideEnd::nothing_carried(),
        }
    }

    /// The end of a numbered link whose directions carried this. If either was refused memory or a thread, both are broken.
    pub(crate) fn of(number: u64, upstream: &Carried, downstream: &Carried) -> LinkEnd
        requires up { upstream.now.stream ≡ StreamOf.Upstream }
        requires down { downstream.now.stream ≡ StreamOf.Downstream }
        ensures { result ≡ carried_link_end number upstream.now downstream.now }
    {
        if upstream.is_refused() || downstream.is_refused() {
            return LinkEnd {
                number,
                upstream: upstream.broken(),
                downstream: downstream.broken(),
            };
        }
        LinkEnd {
            number,
            upstream: upstream.side_end(),
            downstream: downstream.side_end(),
        }
    }

    /// Counts the bytes of the link in the book, and then the endings of both sides.
    pub(crate) fn settle(&self, book: &mut Book)
        ensures { book.new ≡ settled self.now book.old }
    {
        let number = self.number;
        let _ = book.add_bytes(number, Stream::Upstream, self.upstream.bytes);
        let _ = book.add_bytes(number, Stream::Downstream, self.downstream.bytes);
        let _ = book.ended(number, Stream::Upstream, self.upstream.ending);
        let _ = book.ended(number, Stream::Downstream, self.downstream.ending);
    }
}
