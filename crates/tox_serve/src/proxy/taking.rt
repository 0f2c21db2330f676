//! The connections that a proxy takes, and the numbers of their links.
ghost use Rattle.std.specs.Prelude.{◌≡◌, ◌≤◌, [], ◌∷◌, ◌++◌, length, IfSome, IfNone};
ghost use Rattle.tox_link.specs.book.Links.{new_link};
ghost use Rattle.tox_serve.specs.Serving.{is_enough};

use crate::proxy::link_book::LinkBook;
use std::net::TcpStream;
use tox_link::Book;
use tox_words::MAX_CONNECTIONS;

/// A connection that was taken, and the number of its link.
#[derive(Drop)]
pub(crate) struct Taken {
    pub(crate) client: TcpStream,
    pub(crate) number: u64,
    pub(crate) ghost first: { 1 ≤ number },
    pub(crate) ghost last: { number ≤ 1_000_000 },
}

/// Whether a proxy has taken enough connections: as many as it was told to, or as many links as a book holds.
pub(crate) fn is_enough(links: Option<u64>, connections: u64, book: &Book) -> bool
    ensures { result ≡ is_enough links connections (length book.now) }
{
    links.is_some_and(|links| connections >= links) || book.links() >= MAX_CONNECTIONS
}

/// The connection with the number that the book gives it, or None where the book has no memory for it: it is closed then.
pub(crate) fn number_link(links: &mut LinkBook, client: TcpStream) -> Option<Taken>
    ensures opened { IfSome result (λ taken.
        links.new ≡ record links.old { book = links.old.book ++ new_link ∷ [] }) }
    ensures number { IfSome result (λ taken. taken.number ≡ length links.new.book) }
    ensures client { IfSome result (λ taken. taken.client ≡ client) }
    ensures refused { IfNone result (links.new ≡ links.old) }
{
    let number = links.opened()?;
    Some(Taken { client, number })
}
