//! The words that a drawing draws from: lent to it, or its own.
ghost use Rattle.std.specs.Prelude.{◌≡◌};

/// The words of a table.
#[derive(Debug, Drop)]
pub(crate) enum WordTable<'w> {
    Lent(&'w [u32]),
    Owned(Vec<u32>),
}

impl WordTable<'_> {
    ghost use Rattle.tox_words.specs.WordTable.{words_in};

    /// The words in order.
    pub(crate) fn as_slice(&self) -> &[u32]
        ensures { result.now ≡ words_in self.now }
    {
        match self {
            WordTable::Lent(words) => words,
            WordTable::Owned(words) => words,
        }
    }
}
