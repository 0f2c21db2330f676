//! The beginning of a link: its connection was taken, and its upstream may have to be looked up.
use crate::link::break_reason::BreakReason;
use crate::proxy::taking::Taken;
use crate::runtime::ServeRuntime;
use crate::workers::connecting::Client;
use crate::workers::link_key::LinkKey;
use crate::workers::link_state::LinkState;
use crate::workers::subject::Subject;
use crate::workers::taken_at::TakenAt;
use crate::workers::upstream::Addresses;
use crate::workers::worker::Worker;
use crate::workers::worker::registering::register;
use std::mem;
use tox_sockets::LinkStart;

impl<'s, R: ServeRuntime> Worker<'s, R> {
    /// Begins the link of a connection to the proxy at a place.
    pub(super) fn begin(&mut self, place: usize, taken: Taken) {
        let since = TakenAt {
            start: LinkStart::now(self.rt),
            worker: self.now(),
        };
        let client = Client {
            taken,
            proxy: place,
            since,
            closing: false,
        };
        let Some(key) = self.links.open() else {
            self.end_broken(client, BreakReason::Memory);
            return;
        };
        let socket = &client.taken.client;
        if socket.set_nonblocking(true).is_ok()
            && register(&self.registry, socket, Subject::Client(key))
        {
            self.name(key, client);
        } else {
            self.refuse(key, client, BreakReason::Memory);
        }
    }

    /// Connects the upstream of a link, or has its name looked up.
    fn name(&mut self, key: LinkKey, client: Client) {
        let Some(proxy) = self.workers.proxies.get(client.proxy) else {
            self.refuse(key, client, BreakReason::Name);
            return;
        };
        match proxy.upstream.addresses(self.rt) {
            Addresses::Known(addresses) => {
                self.connect(key, client, addresses, 0, BreakReason::Name)
            }
            Addresses::Refused(reason) => self.refuse(key, client, reason),
            Addresses::Asked => self.await_name(key, client),
        }
    }

    /// The link waits for the addresses of its upstream.
    fn await_name(&mut self, key: LinkKey, client: Client) {
        if self.naming.push(key).is_ok() {
            self.links.put(key, LinkState::Naming(client));
        } else {
            self.refuse(key, client, BreakReason::Memory);
        }
    }

    /// Links that wait for the addresses of their upstreams see whether they are known.
    pub(super) fn name_again(&mut self) {
        let keys = mem::replace(&mut self.naming, Vec::new(self.run.alloc));
        for key in keys {
            match self.links.take(key) {
                Some(LinkState::Naming(client)) => self.name(key, client),
                Some(state) => self.links.put(key, state),
                None => {}
            }
        }
    }
}
