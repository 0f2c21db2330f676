//! The variables of the environment that stand in for options of `serve`.
use crate::argument::Argument;
use crate::command_line::{incomplete, refusal};
use crate::takes::Takes;
use clap::error::ErrorKind;
use clap::{ArgMatches, Error};
use std::alloc::{AllocError, Global};
use tox_proxy::VisibleName;

/// A variable that is set.
#[derive(Drop)]
struct Variable {
    name: &'static str,
    /// None: it isn't UTF-8.
    value: Option<String>,
}

/// The variables that are set. One without a value counts as unset.
#[derive(Drop)]
pub struct Environment {
    variables: Vec<Variable>,
}

/// A variable that stands in for an option which wasn't typed.
#[derive(Clone, Copy, Debug)]
pub struct UsedVariable<'a> {
    pub name: &'static str,
    pub value: &'a str,
}

impl Environment {
    /// None is set.
    pub fn new(alloc: Global) -> Environment {
        Environment {
            variables: Vec::new(alloc),
        }
    }

    /// Adds a variable, whose value is None where it isn't UTF-8.
    pub fn add(&mut self, name: &'static str, value: Option<String>) -> Result<(), AllocError> {
        if value.as_ref().is_some_and(|text| text.is_empty()) {
            return Ok(());
        }
        self.variables.push(Variable { name, value })?;
        Ok(())
    }

    /// Whether a variable stands in for an argument.
    pub fn has(&self, argument: &Argument) -> bool {
        self.variable(argument.environment).is_some()
    }

    fn variable(&self, name: &str) -> Option<&Variable> {
        self.variables.iter().find(|variable| variable.name == name)
    }
}

/// The text of an option: the one typed, or else its variable's, which is added to those that are used.
pub(crate) fn text_of<'a>(
    alloc: Global,
    given: &ArgMatches<'a>,
    environment: &'a Environment,
    argument: &Argument,
    used: &mut Vec<UsedVariable<'a>>,
) -> Result<Option<&'a str>, Error> {
    if let Some(typed) = given.get_str(argument.name) {
        return Ok(Some(typed));
    }
    value_of(alloc, environment, argument, used)
}

/// The number of an option: the one typed, or else its variable's, which is added to those that are used.
pub(crate) fn number_of<'a>(
    alloc: Global,
    given: &ArgMatches<'a>,
    environment: &'a Environment,
    argument: &Argument,
    used: &mut Vec<UsedVariable<'a>>,
) -> Result<Option<u64>, Error> {
    if let Some(typed) = given.get_one::<u64>(argument.name) {
        return Ok(Some(typed));
    }
    let Some(value) = value_of(alloc, environment, argument, used)? else {
        return Ok(None);
    };
    match number_within(argument.takes, value) {
        Some(number) => Ok(Some(number)),
        None => Err(wrong_number(alloc, argument, value)),
    }
}

/// The value of the variable that stands in for an argument, which is added to those that are used.
fn value_of<'a>(
    alloc: Global,
    environment: &'a Environment,
    argument: &Argument,
    used: &mut Vec<UsedVariable<'a>>,
) -> Result<Option<&'a str>, Error> {
    let Some(variable) = environment.variable(argument.environment) else {
        return Ok(None);
    };
    let Some(value) = &variable.value else {
        let why = format!(in alloc; "the variable {} isn't UTF-8", variable.name)?;
        return Err(refusal(alloc, ErrorKind::ValueValidation, why.as_str()));
    };
    let value = value.as_str();
    used.push(UsedVariable {
        name: variable.name,
        value,
    })?;
    Ok(Some(value))
}

/// The number that a text is, if it is one that an argument takes.
fn number_within(takes: Takes, text: &str) -> Option<u64> {
    let Takes::Number(range) = takes else {
        return None;
    };
    let number = text.parse().ok()?;
    if range.least <= number && number <= range.most {
        Some(number)
    } else {
        None
    }
}

/// The refusal of a variable that has no number which its argument takes.
fn wrong_number(alloc: Global, argument: &Argument, value: &str) -> Error {
    let Takes::Number(range) = argument.takes else {
        return incomplete(alloc);
    };
    let why = format!(in alloc;
        "invalid value '{}' for the variable {}: it takes a whole number, {range}",
        VisibleName(value),
        argument.environment
    );
    match why {
        Ok(why) => refusal(alloc, ErrorKind::InvalidValue, why.as_str()),
        Err(fault) => fault.into(),
    }
}
