//! What passed a point of a link.
ghost use Rattle.std.specs.Prelude.{◌≤◌, ◌≡◌, length};

use tox_time::Micros;

/// What passed a point of a link: how many bytes, the last instants, and how many bytes at the instants of each column.
#[derive(Drop)]
pub(crate) struct Strand {
    pub(crate) total: u64,
    pub(crate) last: Micros,
    /// The last instant before the horizon, for the axis of time.
    pub(crate) last_before_horizon: Micros,
    pub(crate) counts: Vec<u64>,
    pub(crate) ghost few: { total ≤ 1_099_511_627_776 },
    pub(crate) ghost columns: { length counts.items ≡ 751 },
}
