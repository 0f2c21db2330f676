//! Faults of the random words of a command line.
use crate::inputs::Inputs;
use crate::quoted::Quoted;
use std::alloc::AllocError;
use tox_words::WordsFault;

/// Adds the part that is no word.
pub(crate) fn add_bad_word(
    text: &mut String,
    fault: &WordsFault,
    inputs: &Inputs<'_>,
) -> Result<(), AllocError> {
    let (WordsFault::BadWord(place), Some(words)) = (fault, inputs.words) else {
        return Ok(());
    };
    match words.split(',').nth(*place) {
        Some(part) => {
            let part = Quoted(part);
            write!(text, "  --words: `{part}`\n")
        }
        None => Ok(()),
    }
}
