//! What the streams of a served link meet.
ghost use Rattle.std.specs.Prelude.{◌≡◌, ◌≤◌, IfOk, IfSome};
ghost use Rattle.tox_time.specs.declared.streams.stream.Stream.TheVariants as StreamOf;
ghost use Rattle.tox_serve.specs.link.Courses.{IsCourse};

use crate::run::ServeRun;
use std::alloc::{AllocError, Global};
use tox_compile::{Plan, compile};
use tox_script::Script;
use tox_time::Stream;
use tox_words::Words;

/// The words and the plan of one stream of a link.
#[derive(Drop)]
pub(crate) struct Course {
    pub(crate) stream: Stream,
    pub(crate) words: Words,
    pub(crate) plan: Plan,
}

/// The words of a seed, and the plan of the toxics that a numbered connection of a proxy meets on a stream.
fn course_of(
    alloc: Global,
    script: &Script,
    seed: u64,
    name: &str,
    number: u64,
    stream: Stream,
) -> Result<Course, AllocError>
    requires first { 1 ≤ number }
    requires last { number ≤ 1_000_000 }
    ensures { IfOk result (IsCourse script.now seed name.now number stream) }
{
    let Ok(words) = Words::from_seed(alloc, seed, number, stream) else {
        return Err(AllocError);
    };
    let plan = compile(script.chain(name, number, stream), &words);
    Ok(Course {
        stream,
        words,
        plan,
    })
}

/// The courses of both streams of a link.
#[derive(Drop)]
pub(crate) struct Courses {
    pub(crate) up: Course,
    pub(crate) down: Course,
}

/// The courses of both streams of a numbered link of a proxy. None if out of memory.
pub(crate) fn courses_of(run: &ServeRun<'_>, name: &str, number: u64) -> Option<Courses>
    requires first { 1 ≤ number }
    requires last { number ≤ 1_000_000 }
    ensures up { IfSome result (λ courses. IsCourse run.now.script.now run.now.seed name.now
        number StreamOf.Upstream courses.up) }
    ensures down { IfSome result (λ courses. IsCourse run.now.script.now run.now.seed name.now
        number StreamOf.Downstream courses.down) }
{
    let (alloc, script, seed) = (run.alloc, run.script, run.seed);
    let up = course_of(alloc, script, seed, name, number, Stream::Upstream).ok()?;
    let down = course_of(alloc, script, seed, name, number, Stream::Downstream).ok()?;
    Some(Courses { up, down })
}
