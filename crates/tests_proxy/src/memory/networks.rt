//! The stage network, windows, cores and plans, with too little memory.
use crate::comparing::assert_equal;
use crate::memory::given::Given;
use crate::memory::refusing::{Call, assert_refused, print_refused, tried_of, without_memory};
use std::alloc::{AllocError, Global};
use std::process::Abort;
use tests_support::{Scarcity, Tried, answer_of, at, table_of};
use tox_compile::compile;
use tox_defs::Chain;
use tox_lend::Window;
use tox_link::{Book, LinkCore, OpenFault};
use tox_network::{Move, Network, StepFault};
use tox_plan::deliver;
use tox_time::{Ending, Outcome};

/// A call that makes a part of a link, or what one delivers.
#[derive(Drop)]
pub enum Link {
    Delivery,
    Network,
    Window,
    Core,
}

impl Link {
    /// What it returns with the memory that is left.
    pub fn tried(&self, alloc: Global, given: &Given) -> Tried {
        let (chain, words, arrivals) = (&given.sliced, &given.words, &given.arrivals);
        match self {
            Link::Delivery => tried_of(deliver(alloc, chain, words, arrivals), &AllocError),
            Link::Network => tried_of(Network::new(alloc, chain, words, arrivals, 2), &AllocError),
            Link::Window => tried_of(Window::new(alloc, 4), &AllocError),
            Link::Core => tried_of(
                LinkCore::new(alloc, compile(chain, words), words),
                &AllocError,
            ),
        }
    }
}

#[test]
fn a_delivery_is_refused_memory(rt: HostRuntime) {
    assert_refused(
        &rt,
        &[
            Call::Link(Link::Delivery),
            Call::Link(Link::Network),
            Call::Link(Link::Window),
            Call::Link(Link::Core),
        ],
    );
}

#[test]
fn a_book_is_refused_memory(rt: HostRuntime) {
    let mut book = Book::new(rt.alloc());
    let mut scarcity = without_memory(&rt);
    let answer = book.opened();
    scarcity.end();
    assert_equal(&rt, &answer, &Err(OpenFault::OutOfMemory));
    assert_equal(&rt, &book.links(), &0);
    assert_equal(&rt, &book.opened(), &Ok(1));
    print_refused(&rt, 0, 1);
}

/// When each byte of the sliced arrivals is delivered.
const SETTLED: &[u64] = &[1000, 1000, 2000, 2000, 3000, 3000];

/// Settles a network with little memory, and again with ample memory, after which it has delivered everything.
pub fn settle(
    rt: &(impl Abort + AllocGlobal),
    given: &Given,
    scarcity: &mut Scarcity,
    sixteens: usize,
) -> Tried {
    let network = Network::new(rt.alloc(), &given.sliced, &given.words, &given.arrivals, 2);
    let mut network = network.expect(rt, "memory");
    scarcity.leave(rt.alloc(), sixteens).expect(rt, "memory");
    let answer = network.settle(&[]);
    scarcity.end();
    network.settle(&[]).expect(rt, "memory");
    compare_settled(rt, &network.outcome());
    answer_of(&answer, &StepFault::OutOfMemory)
}

/// Compares what a network has delivered.
fn compare_settled(rt: &(impl Abort + AllocGlobal), outcome: &Outcome) {
    let table = table_of(rt.alloc(), &outcome.slices).expect(rt, "memory");
    assert_equal(rt, &table.as_slice(), &SETTLED);
    assert_equal(rt, &outcome.ending, &Ending::Closed(at(3000)));
}

#[test]
fn a_settled_network_is_refused_memory(rt: HostRuntime) {
    assert_refused(&rt, &[Call::Settle]);
}

/// Compares what a network answers to its second step without memory, and then with ample memory.
fn compare_refused_step(rt: &(impl Abort + AllocGlobal), network: &mut Network<'_>) {
    network.step(Move::Arrive).expect(rt, "a step");
    let mut scarcity = without_memory(rt);
    let answer = network.step(Move::Deliver);
    scarcity.end();
    assert_equal(rt, &answer, &Err(StepFault::OutOfMemory));
    assert_equal(rt, &network.steps(), &1);
    assert_equal(rt, &network.step(Move::Deliver), &Ok(()));
}

/// The same of a network without stages.
fn refuse_step(rt: &(impl Abort + AllocGlobal), given: &Given) {
    let chain = Chain::new();
    let network = Network::new(rt.alloc(), &chain, &given.words, &given.arrivals, 2);
    compare_refused_step(rt, &mut network.expect(rt, "memory"));
}

#[test]
fn a_step_is_refused_memory(rt: HostRuntime) {
    refuse_step(&rt, &Given::new(&rt));
    print_refused(&rt, 0, 1);
}
