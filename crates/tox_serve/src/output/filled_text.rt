//! The report of a proxy whose book is nearly full, or full.
use crate::proxy::filling::Fill;
use std::fmt;
use tox_text::VisibleName;

/// The report of a proxy's book: `proxy shop has had its 1,000,000 connections and listens no more`.
#[derive(Clone, Copy, Debug)]
pub struct FilledText<'a> {
    pub(crate) proxy: &'a str,
    pub(crate) fill: Fill,
}

impl fmt::Display for FilledText<'_> {
    fn fmt<W: fmt::Write>(&self, f: &mut fmt::Formatter<W>) -> fmt::Result {
        let name = VisibleName(self.proxy);
        match self.fill {
            Fill::Nearly => {
                write!(
                    f,
                    "proxy {name} has had 900,000 of its 1,000,000 connections"
                )
            }
            Fill::Full => {
                write!(
                    f,
                    "proxy {name} has had its 1,000,000 connections and listens no more"
                )
            }
        }
    }
}
