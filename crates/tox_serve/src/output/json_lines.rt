//! The lines that serving prints, as objects of JSON.
ghost use Rattle.tox_serve.specs.output.LineText.{IsLine};
ghost use Rattle.tox_serve.specs.output.JsonLines.{link_object, listening_object, proxy_total_object};

use crate::link::end::LinkEnd;
use crate::output::LineText;
use crate::output::serve_lines::end_word;
use tox_link::Book;
use tox_text::JsonField;
use tox_time::Stream;

/// The object of a proxy that listens. None if it is too long; none is.
pub(crate) fn listening_json(name: &str, address: &str) -> Option<LineText>
    ensures { IsLine result (listening_object name.now address.now) }
{
    let fields = [
        JsonField::text("proxy", name),
        JsonField::text("address", address),
    ];
    LineText::of_object("listening", &fields)
}

/// The object of a link that ended. None if it is too long; none is.
pub(crate) fn link_json(name: &str, end: &LinkEnd) -> Option<LineText>
    ensures { IsLine result (link_object name.now end.now) }
{
    let fields = [
        JsonField::text("proxy", name),
        JsonField::number("link", end.number),
        JsonField::number("up", end.upstream.bytes),
        JsonField::text("up_end", end_word(&end.upstream.ending)),
        JsonField::number("down", end.downstream.bytes),
        JsonField::text("down_end", end_word(&end.downstream.ending)),
    ];
    LineText::of_object("link", &fields)
}

/// The object of a proxy's totals. None if it is too long; none is.
pub(crate) fn total_json(name: &str, book: &Book) -> Option<LineText>
    ensures { IsLine result (proxy_total_object name.now book.now) }
{
    let fields = [
        JsonField::text("proxy", name),
        JsonField::number("links", book.links()),
        JsonField::number("up", book.total(Stream::Upstream)),
        JsonField::number("down", book.total(Stream::Downstream)),
    ];
    LineText::of_object("total", &fields)
}
