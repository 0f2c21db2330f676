//! The book of a proxy's links, call by call.
use crate::comparing::assert_equal_at;
use crate::end::End;
use std::process::Abort;
use tox_link::{Book, BookFault};
use tox_time::Stream;

/// A call of a book, or a look at it.
enum Step {
    /// A link is opened, and gets this number.
    Open(u64),
    /// A link's side counts so many bytes.
    Add(u64, Stream, u64, Result<(), BookFault>),
    /// A link's side ends, in this way if it is known.
    End(u64, Stream, Option<End>, Result<(), BookFault>),
    /// How many links were opened, and the bytes of all upstream and downstream.
    Totals(u64, u64, u64),
}

/// Calls a new book as the steps say. A difference names the step by its number.
fn follow(rt: &(impl Abort + AllocGlobal), steps: &[Step]) {
    let mut book = Book::new(rt.alloc());
    for (nth, step) in steps.iter().enumerate() {
        take(rt, &mut book, step, nth as u64);
    }
}

fn take(rt: &impl Abort, book: &mut Book, step: &Step, nth: u64) {
    match step {
        Step::Open(number) => assert_equal_at(rt, &book.opened(), &Ok(*number), nth),
        Step::Add(number, stream, count, answer) => {
            assert_equal_at(rt, &book.add_bytes(*number, *stream, *count), answer, nth);
        }
        Step::End(number, stream, end, answer) => {
            let ended = book.ended(*number, *stream, end.map(End::ending));
            assert_equal_at(rt, &ended, answer, nth);
        }
        Step::Totals(links, upstream, downstream) => {
            assert_equal_at(rt, &totals_of(book), &(*links, *upstream, *downstream), nth);
        }
    }
}

/// How many links were opened, and the bytes of all upstream and downstream.
fn totals_of(book: &Book) -> (u64, u64, u64) {
    let upstream = book.total(Stream::Upstream);
    (book.links(), upstream, book.total(Stream::Downstream))
}

const TWO_LINKS: &[Step] = &[
    Step::Open(1),
    Step::Open(2),
    Step::Add(2, Stream::Upstream, 5, Ok(())),
    Step::End(2, Stream::Upstream, None, Ok(())),
    Step::Add(2, Stream::Upstream, 1, Err(BookFault::AlreadyEnded)),
    Step::Add(3, Stream::Upstream, 1, Err(BookFault::UnknownLink)),
    Step::Totals(2, 5, 0),
];

#[test]
fn a_side_counts_until_it_ends(rt: HostRuntime) {
    follow(&rt, TWO_LINKS);
}

const CLOSED: Option<End> = Some(End::Closed(0));

const FULL_SIDE: &[Step] = &[
    Step::Open(1),
    Step::Add(1, Stream::Downstream, 1 << 40, Ok(())),
    Step::Add(1, Stream::Downstream, 1, Err(BookFault::TooManyBytes)),
    Step::Add(1, Stream::Upstream, 1, Ok(())),
    Step::End(1, Stream::Downstream, CLOSED, Ok(())),
    Step::End(1, Stream::Downstream, CLOSED, Err(BookFault::AlreadyEnded)),
    Step::End(0, Stream::Downstream, CLOSED, Err(BookFault::UnknownLink)),
    Step::Totals(1, 1, 1 << 40),
];

#[test]
fn a_side_has_at_most_2_to_40_bytes(rt: HostRuntime) {
    follow(&rt, FULL_SIDE);
}
