//! The hidden command `arguments`, which prints the table of all commands and arguments.
use crate::command::CommandForm;
use crate::help;

pub(crate) const ARGUMENTS: CommandForm = CommandForm {
    name: "arguments",
    about: "Prints the commands, their arguments and what completes them, as lines of JSON",
    usage: "",
    examples: help::ARGUMENTS,
    arguments: &[],
};
