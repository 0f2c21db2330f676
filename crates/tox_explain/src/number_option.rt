//! An option that takes a number, and what was given in its place.
use crate::command_line::takes;
use crate::toxic_value::meant_in;
use crate::unit::KeyUnit;
use std::alloc::{AllocError, Global};
use tox_arguments::{Argument, ArgumentWords, CommandForm, NumberRange, Takes};
use tox_defs::Unit;

/// Adds what an option takes, and what to write, if its value is no number in its range.
pub(crate) fn add_number_advice(
    text: &mut String,
    alloc: Global,
    form: &CommandForm,
    argument: &Argument,
    value: &str,
) -> Result<(), AllocError> {
    let Takes::Number(range) = argument.takes else {
        return Ok(());
    };
    if is_within(value.parse().ok(), &range) {
        return Ok(());
    }
    let (name, shown) = (argument.name, argument.value);
    write!(text, "  --{name} {shown}: {}\n", ArgumentWords(argument))?;
    let lower = value.trim().to_lowercase(alloc)?;
    let meant = meant_number(&range, lower.as_str());
    match meant {
        Some(number) if is_within(meant, &range) => {
            write!(text, "  write --{name} {number}\n")?;
        }
        _ => {
            let example = range.least.max(1);
            write!(text, "  write a whole number, as --{name} {example}")?;
            if name == "seed" && takes(form, "any-seed") {
                text.push_str("; --any-seed draws one")?;
            }
            text.push_str("\n")?;
        }
    }
    Ok(())
}

fn is_within(number: Option<u64>, range: &NumberRange) -> bool {
    match number {
        Some(number) => range.least <= number && number <= range.most,
        None => false,
    }
}

/// The number that a value with a unit means.
fn meant_number(range: &NumberRange, value: &str) -> Option<u64> {
    let unit = match range.unit {
        "milliseconds" => Unit::Milliseconds,
        "bytes" => Unit::Bytes,
        _ => return None,
    };
    meant_in(KeyUnit::Attribute(unit), value)
}
