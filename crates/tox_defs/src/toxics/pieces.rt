//! Chunks cut into pieces.
ghost use Rattle.std.specs.Prelude.{◌≡◌, ◌<◌};
ghost use Rattle.tox_defs.specs.toxics.Pieces.{first_span};

use tox_time::{Slice, Span};

/// The first bytes of a rest, so many or what there is.
pub(crate) fn front(rest: &Slice, bytes: u64) -> Span
    requires { rest.now.span.start < rest.now.span.stop }
    ensures { result ≡ first_span bytes rest.now.span }
{
    Span {
        start: rest.span.start,
        stop: rest.span.start + bytes.min(rest.span.stop - rest.span.start),
    }
}
