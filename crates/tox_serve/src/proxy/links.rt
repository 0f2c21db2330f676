//! The links of a served proxy: their ends, and the totals once all have ended.
use crate::link::end::LinkEnd;
use crate::output::{print_link, print_total};
use crate::proxy::link_book::LinkBook;
use crate::run::ServeRun;
use crate::runtime::ServeRuntime;
use std::alloc::Global;
use std::sync::{Condvar, Mutex, MutexGuard, Wait};
use std::time::Duration;
use tox_config::ProxyDef;

/// How long links are waited for at a time, in milliseconds.
const TURN: u64 = 50;

/// How many turns without a link's end a run that is stopping waits for links: 750 milliseconds.
const STOPPING_TURNS: u64 = 15;

/// The links of a proxy, which the threads of all of them share.
#[derive(Drop)]
pub(crate) struct ProxyLinks<'a> {
    pub(crate) proxy: &'a ProxyDef,
    /// Its place among all proxies, from 0.
    pub(crate) place: usize,
    book: Mutex<LinkBook>,
    /// Notified when a link has ended.
    ended: Condvar,
}

impl<'a> ProxyLinks<'a> {
    /// A proxy without links.
    pub(crate) fn new(alloc: Global, proxy: &'a ProxyDef, place: usize) -> ProxyLinks<'a> {
        ProxyLinks {
            proxy,
            place,
            book: Mutex::new(LinkBook::new(alloc)),
            ended: Condvar::new(),
        }
    }

    pub(crate) fn book<R: Wait>(&self, rt: &R) -> MutexGuard<'_, LinkBook> {
        self.book.lock(rt)
    }

    /// Settles a link in the book, and prints its line. Does neither once the totals are printed, which are the sums of the lines.
    pub(crate) fn end_link<R: Wait>(&self, rt: &R, run: &ServeRun<'_>, end: &LinkEnd) {
        let proxy = self.proxy;
        let mut book = self.book.lock(rt);
        if book.settle(end) {
            print_link(rt, run, &proxy.name, end);
        }
        self.ended.notify_all();
    }

    /// Whether each link that was opened has ended.
    pub(crate) fn have_ended<R: Wait>(&self, rt: &R) -> bool {
        self.book.lock(rt).have_ended()
    }

    /// Prints the totals once all links have ended. A run that is stopping gives up those left once none has ended for 750
    /// milliseconds.
    pub(crate) fn end<R: ServeRuntime>(&self, rt: &R, run: &ServeRun<'_>) {
        let proxy = self.proxy;
        let mut book = self.ended_book(rt, run);
        book.close();
        print_total(rt, run, &proxy.name, &book.book);
    }

    /// The lock, once all links have ended or were waited for long enough.
    fn ended_book<R: ServeRuntime>(&self, rt: &R, run: &ServeRun<'_>) -> MutexGuard<'_, LinkBook> {
        let mut turns = STOPPING_TURNS;
        let mut book = self.book.lock(rt);
        for _ in rt.forever() {
            if turns == 0 || book.have_ended() {
                return book;
            }
            let turn = Duration::from_millis(TURN);
            let (next, waited) = self.ended.wait_timeout(rt, book, turn);
            book = next;
            if !waited.timed_out() {
                turns = STOPPING_TURNS;
            } else if run.live.is_stopping(rt) {
                turns -= 1;
            }
        }
        unreachable!()
    }
}
