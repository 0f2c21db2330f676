//! What all links of a run of `serve` share.
use crate::descriptors::Descriptors;
use crate::options::ServeOptions;
use crate::output::{LineChannel, NoticeChannel};
use crate::stop::Stop;
use std::alloc::Global;
use std::sync::Arc;
use std::sync::atomic::AtomicU64;
use tox_log::RunLogs;
use tox_script::Script;
use tox_sockets::LiveSockets;
use tox_time::OpenGate;

/// What all links of a run share.
#[derive(Drop)]
pub(crate) struct ServeRun<'a> {
    pub(crate) alloc: Global,
    pub(crate) script: &'a Script,
    pub(crate) seed: u64,
    pub(crate) options: ServeOptions<'a>,
    /// Where logs go, if any are kept.
    pub(crate) logs: &'a Option<RunLogs>,
    /// Where lines go.
    pub(crate) lines: &'a LineChannel,
    /// Where goes what is told beside them.
    pub(crate) notices: &'a NoticeChannel,
    pub(crate) gate: Arc<OpenGate, Global>,
    pub(crate) stop: &'a Stop,
    /// What is stopped once the run is told to end.
    pub(crate) live: &'a LiveSockets,
    pub(crate) descriptors: Descriptors,
    /// How many proxies are served.
    pub(crate) proxies: AtomicU64,
}
