//! Which link of a run it is, whatever worker has it.

/// Names a link of a run: the place of its proxy, and its number among the links of this.
#[derive(Clone, Copy)]
pub(crate) struct LinkName {
    pub(crate) place: usize,
    pub(crate) number: u64,
}
