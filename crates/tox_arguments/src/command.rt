//! A command: its name, what its help says, and its arguments.
use crate::argument::Argument;
use crate::argument_help::CommandLines;
use crate::environment::Environment;
use clap::Command;
use std::alloc::{AllocError, Global};

/// Below the arguments of the short help.
const MORE: &str = "See --help for more, with examples.";

/// A command as its table has it.
#[derive(Clone, Copy)]
pub struct CommandForm {
    pub name: &'static str,
    pub about: &'static str,
    /// How it is called. Empty: as `clap` makes it of the arguments.
    pub usage: &'static str,
    /// What stands below the arguments in the help.
    pub examples: &'static str,
    /// The arguments, in the order of the help.
    pub arguments: &'static [Argument],
}

impl CommandForm {
    /// The command as `clap` has it with these arguments, and their lines. Where these are absent an argument shows its words alone.
    pub(crate) fn command<'a>(
        &self,
        alloc: Global,
        arguments: &[Argument],
        lines: Option<&'a CommandLines>,
        environment: &Environment,
    ) -> Result<Command<'a>, AllocError> {
        let mut command = Command::new(alloc, self.name)
            .about(self.about)
            .after_help(MORE)
            .after_long_help(self.examples);
        if !self.usage.is_empty() {
            command = command.override_usage(self.usage);
        }
        for (place, argument) in arguments.iter().enumerate() {
            let lines = lines.and_then(|lines| lines.arguments.get(place));
            command = command.arg(argument.arg(alloc, lines, environment)?)?;
        }
        Ok(command)
    }
}
