//! The book of a proxy's links while they end: which have ended, and whether the totals are reported.
ghost use Rattle.std.specs.Prelude.{◌≡◌, ◌≤◌, [], ◌∷◌, ◌++◌, true, false, not, length, IfSome, IfNone};
ghost use Rattle.tox_link.specs.book.Links.{new_link};
ghost use Rattle.tox_serve.specs.proxy.LinkBook.{after_end, have_ended};

use crate::link::end::LinkEnd;
use std::alloc::Global;
use tox_link::Book;

/// The book of a proxy's links. Once it is closed, its totals are reported, and no link is settled any more.
#[derive(Drop)]
pub(crate) struct LinkBook {
    pub(crate) book: Book,
    /// How many links are settled.
    ended: u64,
    closed: bool,
}

impl LinkBook {
    /// An open book with no link.
    pub(crate) fn new(alloc: Global) -> LinkBook
        ensures { result ≡ record { book = []; ended = 0; closed = false } }
    {
        LinkBook {
            book: Book::new(alloc),
            ended: 0,
            closed: false,
        }
    }

    /// Opens a link, and returns its number. None if the book is full or has no memory for it.
    pub(crate) fn opened(&mut self) -> Option<u64>
        ensures opened { IfSome result (λ number.
            self.new ≡ record self.old { book = self.old.book ++ new_link ∷ [] }) }
        ensures number { IfSome result (λ number. number ≡ length self.new.book) }
        ensures bound { IfSome result (λ number. number ≤ 1_000_000) }
        ensures refused { IfNone result (self.new ≡ self.old) }
    {
        self.book.opened().ok()
    }

    /// Settles a link, and counts it. False if the book is closed: then nothing changes.
    pub(crate) fn settle(&mut self, end: &LinkEnd) -> bool
        ensures settles { result ≡ not self.old.closed }
        ensures settled { self.new ≡ after_end end.now self.old self.old.closed }
    {
        if self.closed {
            return false;
        }
        end.settle(&mut self.book);
        self.ended = self.ended.saturating_add(1);
        true
    }

    /// Whether each link that was opened is settled.
    pub(crate) fn have_ended(&self) -> bool
        ensures { result ≡ have_ended self.now }
    {
        self.book.links() <= self.ended
    }

    /// Closes the book.
    pub(crate) fn close(&mut self)
        ensures { self.new ≡ record self.old { closed = true } }
    {
        self.closed = true;
    }
}
