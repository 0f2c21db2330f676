//! Making an open link of a client and of the socket of its upstream.
ghost use Rattle.std.specs.Prelude.{◌≡◌, false, IfSome};
ghost use Rattle.tox_time.specs.declared.streams.stream.Stream.TheVariants as StreamOf;
ghost use Rattle.tox_serve.specs.workers.Begun.{HasCourse, IsLinkOf, IsMadeOf, IsNewDirection};

use crate::link::logs::notes_of;
use crate::link::opening::{Opened, open_link};
use crate::link::reached::Reached;
use crate::proxy::links::ProxyLinks;
use crate::run::ServeRun;
use crate::runtime::ServeRuntime;
use crate::workers::connecting::Client;
use crate::workers::open_link::OpenLink;
use crate::workers::taken_at::TakenAt;
use std::boxed::Box;
use tox_time::Stream;

/// The open link of a client, with the courses of its own number, among the live sockets of the run. None if out of memory or the run
/// is stopping.
pub(crate) fn make_link<'r, R: ServeRuntime>(
    rt: &'r R,
    run: &'r ServeRun<'r>,
    links: &ProxyLinks<'_>,
    client: Client,
    reached: Reached,
) -> Option<Box<OpenLink<'r, R>>>
    ensures link { IfSome result (λ link. IsLinkOf client link.value) }
    ensures up { IfSome result (λ link. HasCourse run.now links.now.proxy.now.name
        client.taken.number StreamOf.Upstream client.closing link.value.up) }
    ensures down { IfSome result (λ link. HasCourse run.now links.now.proxy.now.name
        client.taken.number StreamOf.Downstream false link.value.down) }
{
    let Client {
        taken,
        proxy,
        since,
        closing,
    } = client;
    let opened = open_link(rt, run, links, taken, reached)?;
    let number = opened.number;
    let mut link = link_of(rt, run, opened, proxy, since, closing)?;
    // The logs are begun once nothing can fail any more: a link that is broken before has logs that tell just that.
    let up = notes_of(rt, run, links, number, Stream::Upstream);
    let down = notes_of(rt, run, links, number, Stream::Downstream);
    link.log(up, down);
    Some(link)
}

/// A link that was opened, or None if out of memory: its sockets are no longer among the live ones then.
fn link_of<'r, R: ServeRuntime>(
    rt: &'r R,
    run: &'r ServeRun<'r>,
    opened: Opened,
    proxy: usize,
    since: TakenAt,
    closing: bool,
) -> Option<Box<OpenLink<'r, R>>>
    requires up { opened.courses.up.stream ≡ StreamOf.Upstream }
    requires down { opened.courses.down.stream ≡ StreamOf.Downstream }
    ensures parts { IfSome result (λ link. IsMadeOf opened proxy since link.value) }
    ensures up { IfSome result (λ link. IsNewDirection opened.courses.up closing link.value.up) }
    ensures down { IfSome result
        (λ link. IsNewDirection opened.courses.down false link.value.down) }
{
    let live = opened.live;
    let link = OpenLink::new(rt, run.alloc, opened, proxy, since, closing);
    if link.is_none() {
        run.live.remove(rt, live);
    }
    link
}
