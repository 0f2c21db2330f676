//! Serving: sockets under the plans of a script. Threads of its own drive each link (`threads`), or a few workers drive all of them (`workers`).
//! What both share stands beside these: what a stream meets, how a link ended, the book of a proxy's links, and the lines.
#![tactic(auto)]

mod addresses;
mod deadline;
mod descriptors;
mod fault;
mod link;
mod live_listener;
mod options;
mod output;
mod proxy;
mod ready;
mod room;
mod run;
mod runtime;
mod serving;
mod signals;
mod stop;
mod threads;
mod waiting;
mod workers;

pub use addresses::listen_address;
pub use fault::ServeFault;
pub use options::ServeOptions;
pub use output::{
    BrokenText, FilledText, LineForm, NoNotices, NoticeChannel, Notices, tell_waiting,
};
pub use room::Room;
pub use runtime::ServeRuntime;
pub use serving::{serve, serve_with};
pub use signals::tells_to_stop;
pub use stop::Stop;
pub use waiting::{WaitFault, wait_until_ready};
