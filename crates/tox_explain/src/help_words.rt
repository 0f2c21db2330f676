//! The words of the program's help that an explanation takes over.
use tox_arguments::SCRIPTS_HELP;

/// What a field of a script is, as `toxi help scripts` has it.
pub(crate) fn field_words(field: &str) -> Option<&'static str> {
    SCRIPTS_HELP
        .lines()
        .find_map(|line| words_behind(line, field))
}

/// What stands behind a name in a line of help, if the line is about it. Such a line has the names, two spaces or more, and the words.
fn words_behind(line: &'static str, name: &str) -> Option<&'static str> {
    let (names, words) = line.strip_prefix("  ")?.split_once("  ")?;
    if names.split(", ").any(|other| other == name) {
        Some(words.trim_start())
    } else {
        None
    }
}
