//! An argument of a command: a row of the command's table, and how it is given to `clap`.
use crate::argument_help::ArgumentLines;
use crate::environment::Environment;
use crate::takes::{Absent, Takes};
use crate::value_kind::ValueKind;
use clap::{Arg, ArgAction};
use std::alloc::{AllocError, Global};

/// An argument. A table begins with one of the constants below, and says what is different.
#[derive(Clone, Copy)]
pub struct Argument {
    pub name: &'static str,
    /// The letter of its short form. Empty: it has none.
    pub short: &'static str,
    /// Whether it is written as `--name`. Otherwise its values stand alone.
    pub dashed: bool,
    /// The name of a value in the help. A flag has no value, and doesn't show it.
    pub value: &'static str,
    /// What a value names.
    pub kind: ValueKind,
    /// The heading that it stands below in the help. Empty: that of all options.
    pub heading: &'static str,
    /// What it is for. The help tells its range and what holds without it behind these words.
    pub help: &'static str,
    /// Of an option of the program: whether each command has it too.
    pub shared: bool,
    /// What a value may be.
    pub takes: Takes,
    /// What holds without it.
    pub absent: Absent,
    /// The variable of the environment that stands in for it. Empty: none does.
    pub environment: &'static str,
    /// The fewest values that one use takes.
    pub(crate) fewest: usize,
    /// The most values that one use takes.
    pub(crate) most: usize,
    pub(crate) action: ArgAction,
    /// Whether it must be there.
    pub needed: bool,
    /// It must be there unless one of these is. Empty: it may always be absent.
    pub unless: &'static [&'static str],
    /// It can't stand beside these.
    pub(crate) without: &'static [&'static str],
    /// It can't stand without these.
    pub(crate) beside: &'static [&'static str],
}

/// An option with a text.
pub(crate) const OPTION: Argument = Argument {
    name: "",
    short: "",
    dashed: true,
    value: "",
    kind: ValueKind::Plain,
    heading: "",
    help: "",
    shared: false,
    takes: Takes::Text,
    absent: Absent::Untold,
    environment: "",
    fewest: 1,
    most: 1,
    action: ArgAction::Set,
    needed: false,
    unless: &[],
    without: &[],
    beside: &[],
};

/// An option with a text, which may be repeated.
pub(crate) const OPTIONS: Argument = Argument {
    action: ArgAction::Append,
    ..OPTION
};

/// An option without a value.
pub(crate) const FLAG: Argument = Argument {
    takes: Takes::Nothing,
    fewest: 0,
    most: 0,
    action: ArgAction::SetTrue,
    ..OPTION
};

/// A text without an option.
pub(crate) const PLACE: Argument = Argument {
    dashed: false,
    ..OPTION
};

/// Texts without an option, as many as there are.
pub(crate) const PLACES: Argument = Argument {
    fewest: 0,
    most: usize::MAX,
    action: ArgAction::Append,
    ..PLACE
};

impl Argument {
    /// Whether it may stand more than once on a command line.
    pub fn is_repeatable(&self) -> bool {
        self.action == ArgAction::Append
    }

    /// The names that a value may be. Empty: they aren't listed.
    pub fn names(&self) -> &'static [&'static str] {
        match self.takes {
            Takes::Names(names) => names,
            _ => &[],
        }
    }

    /// How many characters it takes in the help, at most.
    pub(crate) fn width(&self) -> usize {
        let value = self.value.len();
        if !self.dashed {
            return value.saturating_add("[<>]...".len());
        }
        let name = "-h, --".len().saturating_add(self.name.len());
        if self.most == 0 {
            name
        } else {
            name.saturating_add(" <>".len()).saturating_add(value)
        }
    }

    /// The argument as `clap` has it, with its lines of help. It needn't be typed where a variable of the environment stands in for it.
    pub(crate) fn arg<'a>(
        &self,
        alloc: Global,
        lines: Option<&'a ArgumentLines>,
        environment: &Environment,
    ) -> Result<Arg<'a>, AllocError> {
        let is_set = environment.has(self);
        let arg = Arg::new(alloc, self.name)
            .value_name(self.value)
            .value_parser(self.takes.parser())
            .hide_possible_values(true)
            .num_args(self.fewest..=self.most)
            .action(self.action)
            .required(self.needed && !is_set);
        let arg = match lines {
            Some(lines) => arg
                .help(lines.short.as_str())
                .long_help(lines.long.as_str()),
            None => arg.help(self.help),
        };
        let arg = if self.heading.is_empty() {
            arg
        } else {
            arg.help_heading(self.heading)
        };
        let arg = if self.dashed {
            arg.long(self.name)
        } else {
            arg
        };
        let arg = match self.short.chars().next() {
            Some(letter) => arg.short(letter),
            None => arg,
        };
        let arg = if is_set {
            arg
        } else {
            arg.required_unless_present_any(self.unless)?
        };
        arg.conflicts_with_all(self.without)?
            .requires_all(self.beside)
    }
}
