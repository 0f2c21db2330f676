//! Calls that are refused memory until they are answered.
use crate::memory::given::Given;
use crate::memory::networks::{Link, settle};
use crate::memory::runs::Run;
use crate::memory::values::Value;
use std::process::Abort;
use std::rt::Files;
use tests_support::{MAX_TRIES, Scarcity, Tried, answer_of};

/// A call that asks for memory.
#[derive(Drop)]
pub enum Call<'a> {
    Value(Value<'a>),
    Link(Link),
    Run(Run),
    /// Settling a network.
    Settle,
}

impl Call<'_> {
    /// Makes the call with about so many times 16 bytes.
    fn attempt(
        &self,
        rt: &(impl Abort + AllocGlobal + Files),
        given: &Given,
        scarcity: &mut Scarcity,
        sixteens: usize,
    ) -> Tried {
        match self {
            Call::Run(run) => run.attempt(rt, given, scarcity, sixteens),
            Call::Settle => settle(rt, given, scarcity, sixteens),
            Call::Value(_) | Call::Link(_) => self.attempt_value(rt, given, scarcity, sixteens),
        }
    }

    /// Makes a call that only returns a value.
    fn attempt_value(
        &self,
        rt: &(impl Abort + AllocGlobal + Files),
        given: &Given,
        scarcity: &mut Scarcity,
        sixteens: usize,
    ) -> Tried {
        scarcity.leave(rt.alloc(), sixteens).expect(rt, "memory");
        let tried = match self {
            Call::Value(value) => value.tried(rt, rt.alloc()),
            Call::Link(link) => link.tried(rt.alloc(), given),
            Call::Run(_) | Call::Settle => Tried::Wrong,
        };
        scarcity.end();
        tried
    }
}

/// What an answer is, where this fault stands for refused memory.
pub fn tried_of<T: Drop, E: PartialEq + Drop>(answer: Result<T, E>, memory: &E) -> Tried {
    answer_of(&answer, memory)
}

/// A process without memory, until the scarcity ends.
pub fn without_memory(rt: &(impl Abort + AllocGlobal)) -> Scarcity {
    let mut scarcity = Scarcity::new(rt.alloc()).expect(rt, "memory");
    scarcity.leave(rt.alloc(), 0).expect(rt, "memory");
    scarcity
}

/// Prints how often the call of a number was refused.
pub fn print_refused(rt: &(impl Abort + Eprint), nth: usize, refused: usize) {
    eprintln!(rt; "call {nth}: refused {refused} times").expect(rt, "standard error");
}

/// How often a call is refused with ever more memory, until it is answered. Stops the test at another answer.
fn times_refused(
    rt: &(impl Abort + AllocGlobal + Files),
    given: &Given,
    scarcity: &mut Scarcity,
    call: &Call<'_>,
) -> usize {
    for sixteens in 0..MAX_TRIES {
        match call.attempt(rt, given, scarcity, sixteens) {
            Tried::Answered => return sixteens,
            Tried::NoMemory => {}
            Tried::NoThread | Tried::Wrong => panic!(rt; "another answer than with ample memory"),
        }
    }
    panic!(rt; "refused whatever is left")
}

/// Tries each of these calls, whose numbers are printed.
fn follow(
    rt: &(impl Abort + AllocGlobal + Eprint + Files),
    given: &Given,
    scarcity: &mut Scarcity,
    calls: &[Call<'_>],
) {
    for (nth, call) in calls.iter().enumerate() {
        let refused = times_refused(rt, given, scarcity, call);
        print_refused(rt, nth, refused);
        assert!(rt; 0 < refused);
    }
}

/// Prints how often each of these calls is refused until it is answered, and asserts that it is.
pub fn assert_refused(rt: &(impl Abort + AllocGlobal + Eprint + Files), calls: &[Call<'_>]) {
    let given = Given::new(rt);
    let mut scarcity = Scarcity::new(rt.alloc()).expect(rt, "memory");
    follow(rt, &given, &mut scarcity, calls);
}
