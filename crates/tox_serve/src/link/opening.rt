//! A link once its upstream is reached: its line, its sockets, and its place among the live ones.
ghost use Rattle.std.specs.Prelude.{◌≡◌, IfSome};
ghost use Rattle.std.specs.Arc.{arc_value};
ghost use Rattle.tox_time.specs.declared.streams.stream.Stream.TheVariants as StreamOf;
ghost use Rattle.tox_serve.specs.link.Courses.{IsCourse};

use crate::link::course::{Courses, courses_of};
use crate::link::reached::Reached;
use crate::output::print_open;
use crate::proxy::links::ProxyLinks;
use crate::proxy::taking::Taken;
use crate::run::ServeRun;
use std::alloc::Global;
use std::sync::{Arc, Wait};
use tox_sockets::{LinkSockets, LiveSocket};
use tox_time::Stream;

/// A link that may carry. Its sockets are among the live ones of the run.
#[derive(Drop)]
pub(crate) struct Opened {
    pub(crate) number: u64,
    pub(crate) courses: Courses,
    pub(crate) sockets: Arc<LinkSockets, Global>,
    /// Its key among the live sockets.
    pub(crate) live: usize,
}

/// Opens a link whose upstream is reached, with the courses of its own number, and prints that. None if out of memory or the run is
/// stopping.
pub(crate) fn open_link<R: Wait>(
    rt: &R,
    run: &ServeRun<'_>,
    links: &ProxyLinks<'_>,
    taken: Taken,
    reached: Reached,
) -> Option<Opened>
    ensures number { IfSome result (λ opened. opened.number ≡ taken.number) }
    ensures up { IfSome result (λ opened. IsCourse run.now.script.now run.now.seed
        links.now.proxy.now.name taken.number StreamOf.Upstream opened.courses.up) }
    ensures down { IfSome result (λ opened. IsCourse run.now.script.now run.now.seed
        links.now.proxy.now.name taken.number StreamOf.Downstream opened.courses.down) }
    ensures sockets { IfSome result (λ opened.
        ((arc_value opened.sockets).client ≡ taken.client)
        × ((arc_value opened.sockets).server ≡ reached.server)) }
{
    let proxy = links.proxy;
    let Taken { client, number } = taken;
    let courses = courses_of(run, &proxy.name, number)?;
    print_open(rt, run, &proxy.name, number, &client, &courses);
    let Reached { server, was_reset } = reached;
    let sockets = LinkSockets::new(run.alloc, client, server)?;
    if was_reset {
        sockets.note_reset(Stream::Downstream);
    }
    let shared = sockets.clone().ok()?;
    let live = run.live.add(rt, LiveSocket::Link(shared)).ok()?;
    Some(Opened {
        number,
        courses,
        sockets,
        live,
    })
}
