//! Descriptors that links wait for.
use crate::proxy::accepting::ACCEPT_REST;
use std::sync::Wait;
use std::sync::atomic::{AtomicU64, Ordering};
use std::thread;
use std::time::{Clock, Duration};
use tox_sockets::SpareDescriptor;

/// The lack of descriptors in a run. Each connection is taken while another descriptor is in hand, which then is for its
/// upstream. While a link waits for one all the same, no connection is taken: so each link that was taken gets its two.
#[derive(Drop)]
pub(crate) struct Descriptors {
    /// How many wait for a descriptor.
    lacking: AtomicU64,
}

impl Descriptors {
    /// Nobody waits for a descriptor.
    pub(crate) fn new() -> Descriptors {
        Descriptors {
            lacking: AtomicU64::new(0),
        }
    }

    /// A descriptor to have in hand while a connection is taken. None where there is none, or somebody waits for one.
    pub(crate) fn spare(&self) -> Option<SpareDescriptor> {
        if self.lacking.load(Ordering::SeqCst) > 0 {
            return None;
        }
        SpareDescriptor::open().ok()
    }

    /// Waits a while for a descriptor. `before` is what an earlier wait of the same link gave.
    pub(crate) fn wait<'a, R: Wait + Clock>(
        &'a self,
        rt: &R,
        before: Option<Lack<'a>>,
    ) -> Lack<'a> {
        let lack = match before {
            Some(lack) => lack,
            None => self.lack(),
        };
        thread::sleep(rt, Duration::from_millis(ACCEPT_REST));
        lack
    }

    /// Somebody waits for a descriptor, while the result lives.
    pub(crate) fn lack(&self) -> Lack<'_> {
        self.lacking.fetch_add(1, Ordering::SeqCst);
        Lack {
            lacking: &self.lacking,
        }
    }
}

/// Somebody who waits for a descriptor.
pub(crate) struct Lack<'a> {
    lacking: &'a AtomicU64,
}

impl Drop for Lack<'_> {
    fn drop(self) {
        self.lacking.fetch_sub(1, Ordering::SeqCst);
        let Lack { lacking: _ } = self;
    }
}
