//! A proxy that workers serve: what all of them share of it.
use crate::proxy::links::ProxyLinks;
use crate::proxy::listening::Listening;
use crate::workers::shared_listener::SharedListener;
use crate::workers::upstream::Upstream;
use std::alloc::Global;

/// A proxy that workers serve.
#[derive(Drop)]
pub(crate) struct ServedProxy<'a> {
    pub(crate) links: ProxyLinks<'a>,
    pub(crate) listener: SharedListener,
    pub(crate) upstream: Upstream,
}

impl<'a> ServedProxy<'a> {
    /// A proxy whose address is bound. None if it can't be served.
    pub(crate) fn new(alloc: Global, listening: Listening<'a>) -> Option<ServedProxy<'a>> {
        let Listening {
            proxy,
            place,
            listener,
            key,
            address: _,
        } = listening;
        let upstream = Upstream::new(alloc, &proxy.upstream)?;
        let listener = SharedListener::new(listener, key);
        Some(ServedProxy {
            links: ProxyLinks::new(alloc, proxy, place),
            listener,
            upstream,
        })
    }
}
