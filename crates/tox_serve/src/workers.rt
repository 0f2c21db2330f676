//! A few threads that drive many links by what the system reports of their sockets, each link as two step machines.

mod balance;
mod connecting;
mod flow;
mod link_key;
mod link_name;
mod link_state;
mod links;
mod open_direction;
mod open_link;
mod peer;
mod served_proxy;
mod shared;
mod shared_listener;
mod socket_event;
mod starting;
mod subject;
mod taken_at;
mod timers;
mod upstream;
mod waits;
mod worker;

pub(crate) use shared::Workers;
pub(crate) use starting::start_workers;
