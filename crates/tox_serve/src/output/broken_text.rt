//! The report of a broken link.
use crate::link::break_reason::BreakReason;
use std::fmt;
use tox_text::VisibleName;

/// The report of a broken link, with the number of those that broke likewise since the last report: `broken shop 3: upstream
/// 127.0.0.1:1: connection refused, and 2 more`.
#[derive(Clone, Copy, Debug)]
pub struct BrokenText<'a> {
    pub(crate) proxy: &'a str,
    pub(crate) upstream: &'a str,
    pub(crate) number: u64,
    pub(crate) reason: BreakReason,
    pub(crate) more: u64,
}

impl fmt::Display for BrokenText<'_> {
    fn fmt<W: fmt::Write>(&self, f: &mut fmt::Formatter<W>) -> fmt::Result {
        write!(f, "broken {} {}: ", VisibleName(self.proxy), self.number)?;
        self.reason.write(f, self.upstream)?;
        if self.more > 0 {
            write!(f, ", and {} more", self.more)?;
        }
        Ok(())
    }
}
