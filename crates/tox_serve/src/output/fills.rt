//! Which proxies are to be reported as nearly full or full.
use crate::proxy::filling::Fill;
use std::alloc::{AllocError, Global};

/// The proxy at a place whose book has become so full.
#[derive(Clone, Copy)]
pub(crate) struct FilledProxy {
    pub(crate) place: usize,
    pub(crate) fill: Fill,
}

/// How full the books of proxies have become, where that isn't reported yet.
#[derive(Drop)]
pub(crate) struct Fills {
    proxies: Vec<Option<Fill>>,
}

impl Fills {
    /// Nothing is to be reported of so many proxies. Their room is reserved, so that no later call takes memory.
    pub(crate) fn new(alloc: Global, proxies: usize) -> Result<Fills, AllocError> {
        let mut fills = Vec::with_capacity(alloc, proxies)?;
        for _ in 0..proxies {
            fills.push(None)?;
        }
        Ok(Fills { proxies: fills })
    }

    /// Notes how full the book of the proxy at a place has become. An earlier note that isn't reported yet is replaced.
    pub(crate) fn note(&mut self, place: usize, fill: Fill) {
        if let Some(noted) = self.proxies.get_mut(place) {
            *noted = Some(fill);
        }
    }

    /// The next proxy to be reported, which counts as reported then.
    pub(crate) fn next(&mut self) -> Option<FilledProxy> {
        for (place, noted) in self.proxies.iter_mut().enumerate() {
            if let Some(fill) = noted.take() {
                return Some(FilledProxy { place, fill });
            }
        }
        None
    }
}
