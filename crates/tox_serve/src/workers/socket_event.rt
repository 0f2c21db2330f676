//! What the system reports of a socket.
ghost use Rattle.std.specs.Prelude.{◌≡◌, ◌||◌};
ghost use Rattle.mio.specs.Event.{is_error, is_priority, is_read_closed, is_readable, is_writable, is_write_closed};

use mio::event::Event;

/// What the system reports of a socket.
#[derive(Clone, Copy)]
pub(crate) struct SocketEvent {
    pub(crate) readable: bool,
    pub(crate) writable: bool,
    /// Whether its peer sends no more.
    pub(crate) closing: bool,
    /// Whether its peer has sent urgent data.
    pub(crate) urgent: bool,
    /// Whether the connection is gone, by a reset or since both its halves are shut.
    pub(crate) gone: bool,
}

impl SocketEvent {
    /// What an event reports. A connection that is gone can be read and written: both calls tell.
    pub(crate) fn of(event: &Event) -> SocketEvent
        ensures gone { result.gone ≡ (is_error event.now || is_write_closed event.now) }
        ensures readable { result.readable
            ≡ (result.gone || is_readable event.now || is_read_closed event.now) }
        ensures writable { result.writable ≡ (result.gone || is_writable event.now) }
        ensures closing { result.closing ≡ (result.gone || is_read_closed event.now) }
        ensures urgent { result.urgent ≡ is_priority event.now }
    {
        let gone = event.is_error() || event.is_write_closed();
        SocketEvent {
            readable: gone || event.is_readable() || event.is_read_closed(),
            writable: gone || event.is_writable(),
            closing: gone || event.is_read_closed(),
            urgent: event.is_priority(),
            gone,
        }
    }
}
