//! What the value of an argument names, for what completes a command line.

/// What a value names.
#[derive(Clone, Copy, Debug, PartialEq, Eq)]
pub enum ValueKind {
    /// A text, a number or one of the listed names.
    Plain,
    File,
    Folder,
    /// A toxic in its short form.
    Toxic,
    /// A stream of a link.
    Stream,
    /// A topic of `help`.
    Topic,
}

impl ValueKind {
    pub fn name(self) -> &'static str {
        match self {
            ValueKind::Plain => "plain",
            ValueKind::File => "file",
            ValueKind::Folder => "folder",
            ValueKind::Toxic => "toxic",
            ValueKind::Stream => "stream",
            ValueKind::Topic => "topic",
        }
    }
}
