//! Links that break before they are open, and the ends of all.
ghost use Rattle.std.specs.Prelude.{◌≡◌};

use crate::link::break_reason::BreakReason;
use crate::link::end::LinkEnd;
use crate::link::logs::{broken_link, note_break};
use crate::runtime::ServeRuntime;
use crate::workers::connecting::Client;
use crate::workers::link_key::LinkKey;
use crate::workers::link_name::LinkName;
use crate::workers::link_state::LinkState;
use crate::workers::open_link::OpenLink;
use crate::workers::worker::Worker;
use crate::workers::worker::accepting::may_accept;

impl<'s, R: ServeRuntime> Worker<'s, R> {
    /// Breaks a link that isn't open, for this reason. Its client is closed.
    pub(super) fn refuse(&mut self, key: LinkKey, client: Client, reason: BreakReason) {
        self.links.close(key);
        self.end_broken(client, reason);
    }

    pub(super) fn end_broken(&mut self, client: Client, reason: BreakReason) {
        let name = client.name();
        drop(client);
        self.break_link(name, reason);
    }

    /// Settles a link that carried nothing, for this reason.
    pub(super) fn break_link(&self, name: LinkName, reason: BreakReason) {
        if let Some(proxy) = self.workers.proxies.get(name.place) {
            let end = broken_link(self.rt, self.run, &proxy.links, name.number, reason);
            self.end_link(name, &end);
        }
    }

    /// Tells why an open link broke that has ended, if it did.
    pub(super) fn note_ended(&self, open: &OpenLink<'s, R>) {
        let name = open.name();
        let proxy = self.workers.proxies.get(name.place);
        if let (Some(proxy), Some(reason)) = (proxy, open.break_reason()) {
            note_break(self.rt, self.run, &proxy.links, name.number, reason);
        }
    }

    /// Settles a link. Its end has its number.
    pub(super) fn end_link(&self, name: LinkName, end: &LinkEnd)
        requires { end.now.number ≡ name.number }
    {
        if let Some(proxy) = self.workers.proxies.get(name.place) {
            proxy.links.end_link(self.rt, self.run, end);
        }
    }

    /// Another thread has woken this one: a name was looked up, a proxy has stopped listening, or the run is stopping.
    pub(super) fn on_wake(&mut self) {
        for place in 0..self.accepting.len() {
            may_accept(&mut self.accepting, place);
        }
        if self.run.live.is_stopping(self.rt) {
            self.stop_links();
        }
        self.name_again();
    }

    /// Breaks all links that aren't open, and gives the others their turns, in which they see that they are stopped.
    fn stop_links(&mut self) {
        for slot in 0..self.links.slots() {
            let Some(key) = self.links.key_at(slot) else {
                continue;
            };
            match self.links.take(key) {
                Some(LinkState::Open(open)) => self.give_both(key, open),
                Some(LinkState::Naming(client)) => self.stop_client(key, client),
                Some(LinkState::Lacking(lacking)) => self.stop_client(key, lacking.into_client()),
                Some(LinkState::Connecting(connecting)) => {
                    self.stop_client(key, connecting.into_client())
                }
                None => {}
            }
        }
    }

    /// Breaks a link that isn't open, as the run is stopping.
    fn stop_client(&mut self, key: LinkKey, client: Client) {
        self.refuse(key, client, BreakReason::Stopped);
    }
}
