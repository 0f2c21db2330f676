//! A line of a picture with what it counts.
ghost use Rattle.std.specs.Prelude.{◌≤◌, ◌≡◌, length};

use tox_time::Micros;

/// What passed a point of the link: how many bytes, the last instant, and the y of each column.
#[derive(Drop)]
pub(crate) struct Curve {
    pub(crate) total: u64,
    pub(crate) last: Micros,
    pub(crate) ys: Vec<u16>,
    pub(crate) ghost few: { total ≤ 1_099_511_627_776 },
    pub(crate) ghost columns: { length ys.items ≡ 751 },
}
