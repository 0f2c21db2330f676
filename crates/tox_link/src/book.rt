//! The book of a proxy's links: which were opened, the bytes that passed on each side, and how each side ended.
ghost use Rattle.std.specs.Prelude.{◌≡◌, ◌+◌, ◌<◌, ◌≤◌, ◌↔◌, [], ◌∷◌, ◌++◌, length, All, MatchResult, slice_index_or, IfOk, OnErr, OnOk, Ok, Err};
ghost use Rattle.tox_link.specs.book.Links.{IsBounded, MakesChange, changed, new_link, running_link, total_of, with_bytes, with_end};
ghost use Rattle.tox_link.specs.declared.book.OpenFault.TheVariants.{BookFull};

pub(crate) mod sides;

use crate::book::sides::{Link, Side, SideState};
use std::alloc::Global;
use std::marker::Model;
use thiserror::Error;
use tox_time::{Ending, MAX_BYTES, Stream};
use tox_words::MAX_CONNECTIONS;

/// Why no link was opened.
#[derive(Clone, Copy, Debug, PartialEq, Eq, Error)]
pub enum OpenFault {
    /// 1,000,000 links were opened.
    #[error("B3 BookFull")]
    BookFull,
    #[error("B0 OutOfMemory")]
    OutOfMemory,
}

/// Why a side of a link was not changed.
#[derive(Clone, Copy, Debug, PartialEq, Eq, Error)]
pub enum BookFault {
    /// No link has this number.
    #[error("B1 UnknownLink")]
    UnknownLink,
    /// This side of the link has ended, or is broken.
    #[error("B2 AlreadyEnded")]
    AlreadyEnded,
    /// The side would have more than 2^40 bytes.
    #[error("B4 TooManyBytes")]
    TooManyBytes,
}

/// The links of one proxy, numbered from 1 in the order in which they were opened, and their totals.
#[derive(Drop)]
pub struct Book {
    links: Vec<Link>,
    upstream: u64,
    downstream: u64,
}

impl Model for Book {
    ghost use Rattle.std.specs.Prelude.{List};
    ghost use Rattle.tox_link.specs.declared.book.sides.Link.{Link as OneLink};

    ghost Value = { List OneLink };

    ghost use Rattle.tox_link.specs.book.BookInside.{IsTotalled};

    ghost view = { λ b. b.links.items };

    ghost invariant = { IsTotalled };
}

impl Book {
    /// A book with no link; takes no memory.
    pub fn new(alloc: Global) -> Book
        ensures { result ≡ [] }
    {
        Book {
            links: Vec::new(alloc),
            upstream: 0,
            downstream: 0,
        }
    }

    /// Opens a link, and returns its number. An `Err` changes nothing.
    pub fn opened(&mut self) -> Result<u64, OpenFault>
        ensures opened { OnOk result (self.new ≡ self.old ++ new_link ∷ []) }
        ensures number { IfOk result (λ number. number ≡ length self.new) }
        ensures bound { IfOk result (λ number. number ≤ 1_000_000) }
        ensures refused { OnErr result (self.new ≡ self.old) }
        ensures full { (length self.old ≡ 1_000_000) ↔ (result ≡ Err BookFull) }
    {
        if self.links.len() as u64 >= MAX_CONNECTIONS {
            return Err(OpenFault::BookFull);
        }
        if self.links.extend_from_slice(&[Link::new()]).is_err() {
            return Err(OpenFault::OutOfMemory);
        }
        Ok(self.links.len() as u64)
    }

    /// How many links were opened.
    pub fn links(&self) -> u64
        ensures { result ≡ length self.now }
    {
        self.links.len() as u64
    }

    /// The bytes that passed on this stream, over all links.
    pub fn total(&self, stream: Stream) -> u64
        ensures { result ≡ total_of stream self.now }
    {
        match stream {
            Stream::Upstream => self.upstream,
            Stream::Downstream => self.downstream,
        }
    }

    /// The place of the link of this number, and the link, if its side of this stream is running.
    fn running(&self, number: u64, stream: Stream) -> Result<(usize, Link), BookFault>
        ensures place { IfOk result (λ r. (r.0 < length self.now) × (number ≡ r.0 + 1)
            × (r.1 ≡ slice_index_or self.now r.0 r.1)) }
        ensures link { MatchResult result (λ r. running_link self.now number stream ≡ Ok r.1)
            (λ fault. running_link self.now number stream ≡ Err fault) }
    {
        if number == 0 || number > self.links.len() as u64 {
            return Err(BookFault::UnknownLink);
        }
        let place = (number - 1) as usize;
        let link = self.links[place];
        match link.side(stream).state {
            SideState::Running => Ok((place, link)),
            SideState::Ended(_) | SideState::Broken => Err(BookFault::AlreadyEnded),
        }
    }

    /// Counts more bytes of a side of a link. An `Err` changes nothing.
    pub fn add_bytes(&mut self, number: u64, stream: Stream, count: u64) -> Result<(), BookFault>
        ensures { MakesChange self.old result self.new
            (changed (with_bytes count) self.old number stream) }
    {
        let (place, link) = self.running(number, stream)?;
        let side = link.side(stream);
        if count > MAX_BYTES - side.bytes {
            return Err(BookFault::TooManyBytes);
        }
        let bytes = side.bytes + count;
        self.links[place] = link.with_side(stream, Side { bytes, ..side });
        match stream {
            Stream::Upstream => self.upstream += count,
            Stream::Downstream => self.downstream += count,
        }
        Ok(())
    }

    /// Notes how a side of a link has ended, or that a fault broke it. An `Err` changes nothing.
    pub fn ended(
        &mut self,
        number: u64,
        stream: Stream,
        ending: Option<Ending>,
    ) -> Result<(), BookFault>
        ensures { MakesChange self.old result self.new
            (changed (with_end ending) self.old number stream) }
    {
        let (place, link) = self.running(number, stream)?;
        let side = Side {
            state: SideState::of_end(ending),
            ..link.side(stream)
        };
        self.links[place] = link.with_side(stream, side);
        Ok(())
    }
}
