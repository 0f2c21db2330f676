//! The lines that serving prints.
ghost use Rattle.std.specs.Prelude.{◌≡◌};
ghost use Rattle.tox_serve.specs.output.LineText.{IsLine};
ghost use Rattle.tox_serve.specs.output.ServeLines.{end_word, link_end_line, listening_line, proxy_total_line};

use crate::link::end::LinkEnd;
use crate::output::LineText;
use tox_link::Book;
use tox_text::Part::{Name, Number, Word};
use tox_time::{Ending, Stream};

/// The line of a proxy that listens. None if it is too long; none is.
pub(crate) fn listening_text<'x>(name: &'x str, address: &'x str) -> Option<LineText>
    ensures { IsLine result (listening_line name.now address.now) }
{
    let parts = [
        Word("listening "),
        Name(name),
        Word(" "),
        Word(address),
        Word("\n"),
    ];
    LineText::of(&parts)
}

/// The line of a link that ended. None if it is too long; none is.
pub(crate) fn link_text(name: &str, end: &LinkEnd) -> Option<LineText>
    ensures { IsLine result (link_end_line name.now end.now) }
{
    let parts = [
        Word("link "),
        Name(name),
        Word(" "),
        Number(end.number),
        Word(" up "),
        Number(end.upstream.bytes),
        Word(" "),
        Word(end_word(&end.upstream.ending)),
        Word(" down "),
        Number(end.downstream.bytes),
        Word(" "),
        Word(end_word(&end.downstream.ending)),
        Word("\n"),
    ];
    LineText::of(&parts)
}

pub(crate) fn end_word(ending: &Option<Ending>) -> &'static str
    ensures { result.now ≡ end_word ending.now }
{
    match ending {
        Some(Ending::StillOpen) => "open",
        Some(Ending::Closed(_)) => "closed",
        Some(Ending::Reset(_)) => "reset",
        None => "broken",
    }
}

/// The line of a proxy's totals: how many links its book has, and their bytes on both streams. None if it is too long;
/// none is.
pub(crate) fn total_text(name: &str, book: &Book) -> Option<LineText>
    ensures { IsLine result (proxy_total_line name.now book.now) }
{
    let upstream = book.total(Stream::Upstream);
    let downstream = book.total(Stream::Downstream);
    let parts = [
        Word("total "),
        Name(name),
        Word(" "),
        Number(book.links()),
        Word(" up "),
        Number(upstream),
        Word(" down "),
        Number(downstream),
        Word("\n"),
    ];
    LineText::of(&parts)
}
