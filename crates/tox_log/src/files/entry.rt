//! What is added to a log.
ghost use Rattle.std.specs.Prelude.{◌≡◌, length};

use crate::{LogLine, LoggedLink};
use tox_defs::Chain;

/// What is added to a log.
#[derive(Clone, Copy)]
pub(crate) enum Entry<'a> {
    Header(Header<'a>),
    Line(&'a LogLine),
}

/// What the header of a log tells.
#[derive(Clone, Copy)]
pub(crate) struct Header<'a> {
    pub(crate) link: &'a LoggedLink<'a>,
    pub(crate) chain: &'a Chain,
    pub(crate) names: &'a [String],
    pub(crate) ghost one_each: { length names.now ≡ length chain.now.entries },
}
