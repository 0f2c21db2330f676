//! A piece of an input, as an explanation shows it.
use std::fmt;
use tox_text::VisibleName;

/// How many characters of a piece are shown.
const MAX_SHOWN: usize = 120;

/// A piece of an input on one line: its first 120 characters, with `..` behind them if there are more.
#[derive(Clone, Copy)]
pub(crate) struct Quoted<'a>(pub(crate) &'a str);

impl<'a> fmt::Display for Quoted<'a> {
    fn fmt<W: fmt::Write>(&self, f: &mut fmt::Formatter<W>) -> fmt::Result {
        match self.0.char_indices().nth(MAX_SHOWN) {
            Some((end, _)) => {
                let shown = VisibleName(self.0.get(..end).unwrap_or(""));
                write!(f, "{shown}..")
            }
            None => {
                let shown = VisibleName(self.0);
                write!(f, "{shown}")
            }
        }
    }
}
