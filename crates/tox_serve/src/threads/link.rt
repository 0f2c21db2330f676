//! One served link: both its directions, what the book keeps of it, and its line.
ghost use Rattle.std.specs.Prelude.{◌≡◌, IfOk};
ghost use Rattle.tox_time.specs.declared.streams.stream.Stream.TheVariants as StreamOf;
ghost use Rattle.tox_serve.specs.link.LinkEnds.{carried_link_end};

use crate::link::break_reason::BreakReason;
use crate::link::course::Courses;
use crate::link::end::{Carried, LinkEnd};
use crate::link::logs::{broken_link, note_break};
use crate::link::opening::{Opened, open_link};
use crate::proxy::links::ProxyLinks;
use crate::proxy::taking::Taken;
use crate::run::ServeRun;
use crate::runtime::ServeRuntime;
use crate::threads::connecting::connect;
use crate::threads::direction::{Direction, carry_stream};
use std::alloc::Global;
use std::sync::Arc;
use std::thread;
use tox_sockets::{LinkSockets, LinkStart};

/// What the downstream direction carried.
#[derive(Drop)]
struct CarriedDown {
    carried: Carried,
    ghost downstream: { carried.stream ≡ StreamOf.Downstream },
}

/// What both directions carried.
#[derive(Drop)]
struct CarriedBoth {
    up: Carried,
    down: CarriedDown,
    ghost upstream: { up.stream ≡ StreamOf.Upstream },
}

impl CarriedBoth {
    /// The end of the numbered link whose directions carried this.
    fn end(&self, number: u64) -> LinkEnd
        ensures { result ≡ carried_link_end number self.now.up self.now.down.carried }
    {
        LinkEnd::of(number, &self.up, &self.down.carried)
    }
}

/// Serves a link to its end.
pub(crate) fn serve_link<R: ServeRuntime>(
    rt: &R,
    run: &ServeRun<'_>,
    links: &ProxyLinks<'_>,
    taken: Taken,
) {
    let number = taken.number;
    let end = match carry_link(rt, run, &*links, taken) {
        Ok(end) => end,
        Err(reason) => broken_link(&*rt, &*run, links, number, reason),
    };
    links.end_link(rt, run, &end);
}

/// Connects a link's upstream, and carries both directions to their ends. Both sockets are dropped then. An error where nothing
/// could be carried.
fn carry_link<R: ServeRuntime>(
    rt: &R,
    run: &ServeRun<'_>,
    links: &ProxyLinks<'_>,
    taken: Taken,
) -> Result<LinkEnd, BreakReason>
    ensures { IfOk result (λ end. end.number ≡ taken.number) }
{
    let proxy = links.proxy;
    let start = LinkStart::now(rt);
    let reached = connect(rt, run, &proxy.upstream)?;
    let Some(opened) = open_link(rt, run, &*links, taken, reached) else {
        return Err(BreakReason::Memory);
    };
    let Opened {
        number,
        courses,
        sockets,
        live,
    } = opened;
    let end = carry_both(&*rt, &*run, &*links, number, &sockets, start, courses);
    run.live.remove(rt, live);
    end
}

/// Carries both directions, one of them in a thread of its own.
fn carry_both<'a, R: ServeRuntime>(
    rt: &'a R,
    run: &'a ServeRun<'a>,
    links: &'a ProxyLinks<'a>,
    number: u64,
    link: &'a Arc<LinkSockets, Global>,
    start: LinkStart,
    courses: Courses,
) -> Result<LinkEnd, BreakReason>
    requires up { courses.up.stream ≡ StreamOf.Upstream }
    requires down { courses.down.stream ≡ StreamOf.Downstream }
    ensures { IfOk result (λ end. end.number ≡ number) }
{
    let Courses { up, down } = courses;
    let (Some(up), Some(down)) = (Direction::new(link, up), Direction::new(link, down)) else {
        return Err(BreakReason::Memory);
    };
    let carried = thread::scope(
        thread::scope_env(),
        rt,
        |scope| -> Option<CarriedBoth>
            requires up { up.course.stream ≡ StreamOf.Upstream }
            requires down { down.course.stream ≡ StreamOf.Downstream }
        {
            let answers = scope.spawn(
                move || -> CarriedDown
                    requires { down.course.stream ≡ StreamOf.Downstream }
                {
                    CarriedDown {
                        carried: carry_stream(rt, run, links, number, link, down, start).carried,
                    }
                },
            );
            let Ok(answers) = answers else {
                return None;
            };
            let up = carry_stream(rt, run, links, number, link, up, start).carried;
            let down = answers.join(rt);
            Some(CarriedBoth { up, down })
        },
    );
    match carried {
        Some(both) => {
            if let Some(reason) = BreakReason::of(&both.up, &both.down.carried) {
                note_break(rt, run, links, number, reason);
            }
            Ok(both.end(number))
        }
        None => Err(BreakReason::Thread),
    }
}
