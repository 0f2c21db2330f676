//! The two sockets of a served link.
ghost use Rattle.std.specs.Prelude.{◌≡◌, IfSome, None};
ghost use Rattle.std.specs.Arc.{arc_value};
ghost use Rattle.tox_sockets.specs.Streams.{source_of, target_of};

use crate::abort_cause::{AbortCause, NOT_ABORTED};
use crate::socket_calls::prepare_connection;
use crate::sockets::Sockets;
use std::alloc::Global;
use std::net::TcpStream;
use std::sync::Arc;
use std::sync::atomic::{AtomicBool, AtomicU32, Ordering};
use tox_time::Stream;

/// How a link was cut: not yet, by a close of both sockets, or by a reset.
const UNCUT: u32 = 0;

const CLOSED: u32 = 1;

const RESET: u32 = 2;

/// The two sockets of a link, which the threads of both its directions share.
#[derive(Drop)]
pub struct LinkSockets {
    pub client: TcpStream,
    pub server: TcpStream,
    /// How the link was cut, one of the three above.
    cut: AtomicU32,
    /// The code of why the link was aborted.
    aborted: AtomicU32,
    /// Whether the client has reset the connection.
    client_reset: AtomicBool,
    /// Whether the upstream has.
    server_reset: AtomicBool,
}

impl LinkSockets {
    /// Of a client, which a prepared listener gave, and of the upstream that was connected for it. None if out of memory.
    pub fn new(
        alloc: Global,
        client: TcpStream,
        server: TcpStream,
    ) -> Option<Arc<LinkSockets, Global>>
        ensures client { IfSome result (λ link. (arc_value link).client ≡ client) }
        ensures server { IfSome result (λ link. (arc_value link).server ≡ server) }
    {
        // A socket that is gone by now refuses its options, and its first read or write tells.
        let _ = prepare_connection(&server);
        Arc::new(
            alloc,
            LinkSockets {
                client,
                server,
                cut: AtomicU32::new(UNCUT),
                aborted: AtomicU32::new(NOT_ABORTED),
                client_reset: AtomicBool::new(false),
                server_reset: AtomicBool::new(false),
            },
        )
        .ok()
    }

    /// Whether the link was cut. Nothing of its sockets is read from then on, and no half of them is shut by itself.
    pub fn is_cut(&self) -> bool {
        self.cut.load(Ordering::SeqCst) != UNCUT
    }

    /// Cuts the link, unless it was cut before. True if it is cut by a close, this one or that of the other stream.
    pub fn cut_to_close(&self) -> bool {
        match self
            .cut
            .compare_exchange(UNCUT, CLOSED, Ordering::SeqCst, Ordering::SeqCst)
        {
            Ok(_) => true,
            Err(before) => before == CLOSED,
        }
    }

    /// Cuts the link, unless it was cut before. True if it is this cut that resets it.
    pub fn cut_to_reset(&self) -> bool {
        self.cut
            .compare_exchange(UNCUT, RESET, Ordering::SeqCst, Ordering::SeqCst)
            .is_ok()
    }

    /// Ends the link from inside. Nothing more of it is written, a stream of it that ends from now on is broken for the cause of the
    /// first abort, and both sockets are reset. That wakes what reads them, so the cause stands before.
    pub fn abort(&self, cause: AbortCause) {
        let _ = self.aborted.compare_exchange(
            NOT_ABORTED,
            cause.code(),
            Ordering::SeqCst,
            Ordering::SeqCst,
        );
        self.ends_of(Stream::Upstream).reset();
    }

    /// Why the link was aborted, if it was.
    pub fn abort_cause(&self) -> Option<AbortCause> {
        AbortCause::of_code(self.aborted.load(Ordering::SeqCst))
    }

    /// Whether the link was aborted.
    pub fn is_aborted(&self) -> bool {
        self.abort_cause().is_some()
    }

    /// The peer that a stream comes from has reset its connection.
    pub fn note_reset(&self, stream: Stream) {
        self.reset_of(stream).store(true, Ordering::SeqCst);
    }

    /// Whether the peer that a stream comes from was seen to reset its connection.
    pub fn was_reset(&self, stream: Stream) -> bool {
        self.reset_of(stream).load(Ordering::SeqCst)
    }

    /// Whether the source of a stream has reset its connection.
    fn reset_of(&self, stream: Stream) -> &AtomicBool {
        match stream {
            Stream::Upstream => &self.client_reset,
            Stream::Downstream => &self.server_reset,
        }
    }

    /// The ends of a stream. Upstream goes from the client to the server, and downstream comes back.
    pub fn ends_of(&self, stream: Stream) -> Sockets<'_>
        ensures link { result.link.now ≡ self.now }
        ensures source { result.source.now ≡ source_of stream self.now }
        ensures target { result.target.now ≡ target_of stream self.now }
        ensures fresh { result.aborted ≡ None }
    {
        let (source, target) = match stream {
            Stream::Upstream => (&self.client, &self.server),
            Stream::Downstream => (&self.server, &self.client),
        };
        Sockets {
            link: self,
            source,
            target,
            aborted: None,
        }
    }
}
