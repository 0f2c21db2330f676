//! Connecting the upstream of a link.
ghost use Rattle.std.specs.Prelude.{◌≡◌, ◌||◌, ◌↔◌, false, IfSome, IsSome, Some};
ghost use Rattle.slab.specs.Slab.{Updates, get};
ghost use Rattle.tox_serve.specs.workers.Directions.{is_armed};
ghost use Rattle.tox_serve.specs.workers.Places.{with_link_state};
ghost use Rattle.tox_serve.specs.declared.workers.link_state.LinkState.TheVariants.{Connecting as ConnectingState};
ghost use Rattle.tox_serve.specs.workers.Begun.{IsLinkOf};

use crate::link::break_reason::BreakReason;
use crate::link::reached::Reached;
use crate::proxy::accepting::{ACCEPT_REST, is_lack};
use crate::runtime::ServeRuntime;
use crate::workers::connecting::{Client, Connecting, Lacking};
use crate::workers::link_key::LinkKey;
use crate::workers::link_state::LinkState;
use crate::workers::open_link::OpenLink;
use crate::workers::peer::Peer;
use crate::workers::socket_event::SocketEvent;
use crate::workers::subject::Subject;
use crate::workers::timers::Turn;
use crate::workers::waits::MILLI;
use crate::workers::worker::Worker;
use crate::workers::worker::making::make_link;
use crate::workers::worker::registering::register;
use mio::net::TcpStream as BegunStream;
use std::alloc::Global;
use std::boxed::Box;
use std::io::ErrorKind;
use std::net::{SocketAddr, TcpStream};
use std::sync::Arc;
use tox_sockets::{Connection, connection_of};
use tox_time::Stream;

/// How the connect of a link begins.
#[derive(Drop)]
enum Beginning {
    /// It has begun, and the place behind its address.
    Begun(TcpStream, usize),
    /// There is no descriptor to connect the address at this place.
    Lacks(usize),
    /// No address is left, or the link can't have its socket, for this reason.
    Refused(BreakReason),
}

impl<'s, R: ServeRuntime> Worker<'s, R> {
    /// Begins to connect the first of the addresses, from a place on, that can be tried. Without one the link is broken, for the reason
    /// of the last one.
    pub(super) fn connect(
        &mut self,
        key: LinkKey,
        client: Client,
        addresses: Arc<Vec<SocketAddr>, Global>,
        from: usize,
        reason: BreakReason,
    ) {
        match self.begin_connect(key, &addresses, from, reason) {
            Beginning::Begun(server, next) => {
                self.await_connect(key, client, server, addresses, next)
            }
            Beginning::Lacks(place) => self.await_descriptor(key, client, addresses, place),
            Beginning::Refused(reason) => self.refuse(key, client, reason),
        }
    }

    /// Begins to connect an address from a place on.
    fn begin_connect(
        &self,
        key: LinkKey,
        addresses: &[SocketAddr],
        from: usize,
        reason: BreakReason,
    ) -> Beginning {
        let mut reason = reason;
        for place in from..addresses.len() {
            if self.run.live.is_stopping(self.rt) {
                break;
            }
            match BegunStream::connect(self.rt, addresses[place]) {
                Ok(begun) => {
                    let server = TcpStream::from(begun);
                    return if register(&self.registry, &server, Subject::Server(key)) {
                        Beginning::Begun(server, place + 1)
                    } else {
                        Beginning::Refused(BreakReason::Memory)
                    };
                }
                Err(error) if is_lack(&error) => return Beginning::Lacks(place),
                Err(error) => reason = BreakReason::Upstream(error.kind()),
            }
        }
        Beginning::Refused(reason)
    }

    /// The link waits for its upstream's answer.
    fn await_connect(
        &mut self,
        key: LinkKey,
        client: Client,
        server: TcpStream,
        addresses: Arc<Vec<SocketAddr>, Global>,
        next: usize,
    ) {
        let Ok(deadline) = self.set_deadline(key) else {
            self.refuse(key, client, BreakReason::Memory);
            return;
        };
        let connecting = Connecting {
            client,
            server,
            addresses,
            next,
            deadline,
        };
        self.links.put(key, LinkState::Connecting(connecting));
    }

    /// The link waits for a descriptor. No connection is taken meanwhile.
    fn await_descriptor(
        &mut self,
        key: LinkKey,
        client: Client,
        addresses: Arc<Vec<SocketAddr>, Global>,
        next: usize,
    ) {
        let due = self.now().saturating_add(ACCEPT_REST * MILLI);
        if !self.set_timer(key, due) {
            self.refuse(key, client, BreakReason::Memory);
            return;
        }
        let lacking = Lacking {
            client,
            addresses,
            next,
            due,
            lack: self.run.descriptors.lack(),
        };
        self.links.put(key, LinkState::Lacking(lacking));
    }

    /// The timer of a link that waits for a descriptor is over: it tries again, if that is its own.
    pub(super) fn try_again(&mut self, key: LinkKey, lacking: Lacking<'s>, due: u64) {
        if lacking.due != due {
            self.links.put(key, LinkState::Lacking(lacking));
            return;
        }
        let Lacking {
            client,
            addresses,
            next,
            due: _,
            lack,
        } = lacking;
        self.connect(key, client, addresses, next, BreakReason::Name);
        drop(lack);
    }

    /// Sets a timer for when a connect that begins now is given up, if it is. An error if out of memory.
    fn set_deadline(&mut self, key: LinkKey) -> Result<Option<u64>, ()> {
        let Some(millis) = self.run.options.connect_timeout else {
            return Ok(None);
        };
        let due = self
            .now()
            .saturating_add(u64::from(millis).saturating_mul(MILLI));
        if self.set_timer(key, due) {
            Ok(Some(due))
        } else {
            Err(())
        }
    }

    /// Sets a timer of a link that isn't open. False if out of memory.
    fn set_timer(&mut self, key: LinkKey, due: u64) -> bool {
        let turn = Turn {
            key,
            stream: Stream::Upstream,
        };
        self.timers.set(due, turn)
    }

    /// The system reported something of a socket of a link that isn't open.
    pub(super) fn on_unopened(
        &mut self,
        key: LinkKey,
        state: LinkState<'s, R>,
        peer: Peer,
        event: &SocketEvent,
    ) {
        match state {
            LinkState::Naming(client) => {
                if let Some(client) = self.note_client(key, client, event) {
                    self.links.put(key, LinkState::Naming(client));
                }
            }
            LinkState::Lacking(lacking) => self.note_lacking(key, lacking, event),
            LinkState::Connecting(connecting) => {
                if let Some(open) = self.on_connecting(key, connecting, peer, event) {
                    self.give_both(key, open);
                }
            }
            LinkState::Open(open) => self.settle(key, open),
        }
    }

    /// The system reported something of the client of a link that isn't connected yet. None if it is gone: the link is broken then.
    fn note_client(&mut self, key: LinkKey, client: Client, event: &SocketEvent) -> Option<Client>
        ensures some { IfSome result (λ noted. noted
            ≡ record client { closing = client.closing || event.now.closing }) }
        ensures gone { IsSome result ↔ (event.now.gone ≡ false) }
    {
        let mut client = client;
        if event.gone {
            self.refuse(key, client, BreakReason::Client);
            return None;
        }
        client.note(event);
        Some(client)
    }

    /// The system reported something of the client of a link that waits for a descriptor.
    fn note_lacking(&mut self, key: LinkKey, lacking: Lacking<'s>, event: &SocketEvent) {
        let mut lacking = lacking;
        if event.gone {
            self.refuse(key, lacking.into_client(), BreakReason::Client);
            return;
        }
        lacking.client.note(event);
        self.links.put(key, LinkState::Lacking(lacking));
    }

    /// The system reported something of a socket of a link that is being connected. The link, once it is open.
    fn on_connecting(
        &mut self,
        key: LinkKey,
        connecting: Connecting,
        peer: Peer,
        event: &SocketEvent,
    ) -> Option<Box<OpenLink<'s, R>>>
        ensures { IfSome result (λ link. IsLinkOf connecting.client link.value) }
    {
        if peer == Peer::Client && !event.gone {
            let mut connecting = connecting;
            connecting.client.note(event);
            self.links.put(key, LinkState::Connecting(connecting));
            return None;
        }
        let connection = connection_of(&connecting.server);
        match connection {
            Connection::There => self.open(key, connecting, false, peer, event),
            Connection::WasReset => self.open(key, connecting, true, peer, event),
            Connection::Coming | Connection::Refused(_) => {
                self.on_unconnected(key, connecting, connection, peer);
                None
            }
        }
    }

    /// A socket was reported of a link whose upstream isn't connected by now: that of the client, which is gone, or of the upstream.
    fn on_unconnected(
        &mut self,
        key: LinkKey,
        connecting: Connecting,
        connection: Connection,
        peer: Peer,
    ) {
        if peer == Peer::Client {
            self.refuse(key, connecting.into_client(), BreakReason::Client);
        } else if let Connection::Refused(kind) = connection {
            self.connect_next(key, connecting, kind);
        } else {
            self.links.put(key, LinkState::Connecting(connecting));
        }
    }

    /// Gives a connect up that failed for this reason, and tries the next address.
    fn connect_next(&mut self, key: LinkKey, connecting: Connecting, kind: ErrorKind) {
        let Connecting {
            client,
            server,
            addresses,
            next,
            deadline: _,
        } = connecting;
        drop(server);
        self.connect(key, client, addresses, next, BreakReason::Upstream(kind));
    }

    /// The timer of a connect is over. It is given up if that is its own, and not one of an address before.
    pub(super) fn on_deadline(&mut self, key: LinkKey, connecting: Connecting, due: u64)
        ensures { is_armed due connecting.deadline ≡ false
            → Updates self.old.links.places self.new.links.places key.slot (with_link_state
            key.generation (Some (ConnectingState connecting))
            (get self.old.links.places key.slot)) }
    {
        if connecting.deadline == Some(due) {
            self.connect_next(key, connecting, ErrorKind::TimedOut);
        } else {
            self.links.put(key, LinkState::Connecting(connecting));
        }
    }

    /// The link of an upstream that is connected, as a report of one of its sockets has shown. None if out of memory or the run is
    /// stopping: the link is broken then.
    fn open(
        &mut self,
        key: LinkKey,
        connecting: Connecting,
        was_reset: bool,
        peer: Peer,
        event: &SocketEvent,
    ) -> Option<Box<OpenLink<'s, R>>>
        ensures { IfSome result (λ link. IsLinkOf connecting.client link.value) }
    {
        let Connecting {
            client,
            server,
            addresses: _,
            next: _,
            deadline: _,
        } = connecting;
        let name = client.name();
        let Some(mut open) = self.make(client, Reached { server, was_reset }) else {
            self.links.close(key);
            self.break_link(name, BreakReason::Memory);
            return None;
        };
        // The report may also say that the peer sends no more, which isn't reported again.
        open.note(peer, event);
        Some(open)
    }

    /// The link of a client whose upstream is connected. None if out of memory or the run is stopping.
    fn make(&mut self, client: Client, reached: Reached) -> Option<Box<OpenLink<'s, R>>>
        ensures { IfSome result (λ link. IsLinkOf client link.value) }
    {
        let links = &self.workers.proxies.get(client.proxy)?.links;
        make_link(self.rt, self.run, links, client, reached)
    }
}
