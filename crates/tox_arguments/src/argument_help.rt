//! What the help says of an argument: what it is for, its range, and what holds without it.
use crate::argument::Argument;
use crate::command::CommandForm;
use crate::commands::{COMMANDS, PROGRAM, arguments_of};
use crate::takes::{Absent, Takes};
use std::alloc::{AllocError, Global};
use std::fmt;

/// What the help says of an argument, in a line.
#[derive(Clone, Copy)]
pub struct ArgumentHelp<'a>(pub &'a Argument);

/// What an argument is for, what it takes, and what holds without it, in a line.
#[derive(Clone, Copy)]
pub struct ArgumentWords<'a>(pub &'a Argument);

impl<'a> fmt::Display for ArgumentHelp<'a> {
    fn fmt<W: fmt::Write>(&self, f: &mut fmt::Formatter<W>) -> fmt::Result {
        write!(f, "{}", ArgumentWords(self.0))?;
        if !self.0.environment.is_empty() {
            write!(f, " [environment: {}]", self.0.environment)?;
        }
        Ok(())
    }
}

impl<'a> fmt::Display for ArgumentWords<'a> {
    fn fmt<W: fmt::Write>(&self, f: &mut fmt::Formatter<W>) -> fmt::Result {
        f.write_str(self.0.help)?;
        if let Takes::Number(range) = self.0.takes {
            write!(f, ", {range}")?;
        }
        write_names(self.0.names(), f)?;
        if !matches!(self.0.absent, Absent::Untold) {
            write!(f, " [default: {}]", self.0.absent)?;
        }
        Ok(())
    }
}

/// Writes the names that a value may be, if they are listed.
fn write_names<W: fmt::Write>(names: &[&str], f: &mut fmt::Formatter<W>) -> fmt::Result {
    let mut start = " [possible values: ";
    for name in names {
        write!(f, "{start}{name}")?;
        start = ", ";
    }
    f.write_str(if names.is_empty() { "" } else { "]" })
}

/// How many characters a line of the help has at most.
const WIDTH: usize = 80;

/// How many of them stand before a line of the long help.
const LONG_INDENT: usize = 10;

/// How many stand around the arguments of the short help, beside their longest.
const GAPS: usize = 4;

/// The help of an argument, in lines.
#[derive(Debug, Drop)]
pub(crate) struct ArgumentLines {
    /// Beside the argument, as `-h` shows it.
    pub(crate) short: String,
    /// Below it, as `--help` does.
    pub(crate) long: String,
}

/// The lines of the arguments of the program and of each command.
#[derive(Debug, Drop)]
pub struct HelpLines {
    pub(crate) program: CommandLines,
    /// In the order of [`COMMANDS`].
    pub(crate) commands: Vec<CommandLines>,
}

/// The lines of the arguments of a command, in its order.
#[derive(Debug, Drop)]
pub(crate) struct CommandLines {
    pub(crate) arguments: Vec<ArgumentLines>,
}

impl HelpLines {
    /// The lines of all commands.
    pub fn new(alloc: Global) -> Result<HelpLines, AllocError> {
        let mut commands = Vec::new(alloc);
        for form in COMMANDS {
            commands.push(CommandLines::of(alloc, form)?)?;
        }
        Ok(HelpLines {
            program: CommandLines::of(alloc, &PROGRAM)?,
            commands,
        })
    }
}

impl CommandLines {
    fn of(alloc: Global, form: &CommandForm) -> Result<CommandLines, AllocError> {
        let given = arguments_of(alloc, form)?;
        let mut widest: usize = 0;
        for argument in &given {
            widest = widest.max(argument.width());
        }
        let beside = WIDTH.saturating_sub(widest.saturating_add(GAPS));
        let mut arguments = Vec::new(alloc);
        for argument in &given {
            let text = format!(in alloc; "{}", ArgumentHelp(argument))?;
            arguments.push(ArgumentLines {
                short: wrapped(alloc, text.as_str(), beside)?,
                long: wrapped(alloc, text.as_str(), WIDTH - LONG_INDENT)?,
            })?;
        }
        Ok(CommandLines { arguments })
    }
}

/// A text in lines of at most so many characters, where no word is longer.
fn wrapped(alloc: Global, text: &str, width: usize) -> Result<String, AllocError> {
    let mut lines = String::new(alloc);
    let mut filled: usize = 0;
    for word in text.split(' ') {
        let behind = filled.saturating_add(1).saturating_add(word.len());
        if filled == 0 {
            filled = word.len();
        } else if behind <= width {
            lines.push(' ')?;
            filled = behind;
        } else {
            lines.push('\n')?;
            filled = word.len();
        }
        lines.push_str(word)?;
    }
    Ok(lines)
}
