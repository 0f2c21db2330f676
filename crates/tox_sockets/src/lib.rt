//! The sockets of served links: their options, how they are cut and shut, the ends of a direction over them, and a link's clock.
#![tactic(auto)]

mod abort_cause;
mod bound;
mod clock;
mod connection;
mod failures;
mod link_sockets;
mod live_sockets;
mod readiness;
mod ready_sink;
mod ready_source;
mod reset_due;
mod socket_calls;
mod sockets;
mod spare;
mod until_cut;
mod until_due;

pub use abort_cause::AbortCause;
pub use clock::{LinkStart, SinceStart};
pub use connection::{Connection, connection_of};
pub use link_sockets::LinkSockets;
pub use live_sockets::{LiveSocket, LiveSockets};
pub use ready_sink::ReadySink;
pub use ready_source::ReadySource;
pub use socket_calls::{can_read, can_write, prepare_listener};
pub use spare::SpareDescriptor;
pub use until_cut::UntilCut;
pub use until_due::UntilDue;
