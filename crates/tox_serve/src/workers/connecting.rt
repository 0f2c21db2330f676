//! A link whose upstream isn't connected yet.
ghost use Rattle.std.specs.Prelude.{◌≡◌, ◌||◌};

use crate::descriptors::Lack;
use crate::proxy::taking::Taken;
use crate::workers::link_name::LinkName;
use crate::workers::socket_event::SocketEvent;
use crate::workers::taken_at::TakenAt;
use std::alloc::Global;
use std::net::{SocketAddr, TcpStream};
use std::sync::Arc;

/// The client of a link that isn't connected yet.
#[derive(Drop)]
pub(crate) struct Client {
    pub(crate) taken: Taken,
    /// The place of its proxy.
    pub(crate) proxy: usize,
    pub(crate) since: TakenAt,
    /// Whether it was reported to send no more.
    pub(crate) closing: bool,
}

/// A connect that has begun.
#[derive(Drop)]
pub(crate) struct Connecting {
    pub(crate) client: Client,
    pub(crate) server: TcpStream,
    pub(crate) addresses: Arc<Vec<SocketAddr>, Global>,
    /// The place of the address that is tried next.
    pub(crate) next: usize,
    /// When it is given up, by the worker's clock.
    pub(crate) deadline: Option<u64>,
}

impl Client {
    /// Which link it is the client of.
    pub(crate) fn name(&self) -> LinkName
        ensures { result ≡ record { place = self.now.proxy; number = self.now.taken.number } }
    {
        LinkName {
            place: self.proxy,
            number: self.taken.number,
        }
    }

    /// The system reported something of its socket. That it sends no more isn't reported again.
    pub(crate) fn note(&mut self, event: &SocketEvent)
        ensures { self.new ≡ record self.old { closing = self.old.closing || event.now.closing } }
    {
        self.closing = self.closing || event.closing;
    }
}

impl Connecting {
    /// Gives the connect up.
    pub(crate) fn into_client(self) -> Client
        ensures { result ≡ self.client }
    {
        let Connecting {
            client,
            server: _,
            addresses: _,
            next: _,
            deadline: _,
        } = self;
        client
    }
}

/// A link whose connect waits for a descriptor.
#[derive(Drop)]
pub(crate) struct Lacking<'r> {
    pub(crate) client: Client,
    pub(crate) addresses: Arc<Vec<SocketAddr>, Global>,
    /// The place of the address that is tried next.
    pub(crate) next: usize,
    /// When it is tried, by the worker's clock.
    pub(crate) due: u64,
    pub(crate) lack: Lack<'r>,
}

impl<'r> Lacking<'r> {
    /// Gives the connect up.
    pub(crate) fn into_client(self) -> Client
        ensures { result ≡ self.entry.client }
    {
        let Lacking {
            client,
            addresses: _,
            next: _,
            due: _,
            lack: _,
        } = self;
        client
    }
}
