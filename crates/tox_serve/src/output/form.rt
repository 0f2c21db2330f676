//! How lines are written.

/// How each line is written.
#[derive(Clone, Copy, Debug, PartialEq, Eq)]
pub enum LineForm {
    /// Words and numbers with spaces between them.
    Words,
    /// One JSON object.
    Json,
}

impl Default for LineForm {
    fn default() -> LineForm {
        LineForm::Words
    }
}
