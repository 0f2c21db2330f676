//! Faults of the toxics of a command line.
use crate::bad_form::mistake_in;
use crate::explanation::Rest;
use crate::inputs::Inputs;
use crate::meant_form::meant_form;
use crate::quoted::Quoted;
use crate::toxic_attributes::add_range;
use crate::unit::KeyUnit;
use crate::unknown_name::UnknownName;
use std::alloc::{AllocError, Global};
use tox_defs::{ShortFault, Toxic, ToxicFault};
use tox_proxy::ToxicsFault;

/// Adds the toxic that a fault is about, and what is wrong in it.
pub(crate) fn explain_toxics(
    text: &mut String,
    alloc: Global,
    fault: &ToxicsFault,
    inputs: &Inputs<'_>,
) -> Result<Rest, AllocError> {
    let Some(form) = form_of(fault, inputs) else {
        return Ok(Rest::Words);
    };
    let number = number_of(fault);
    let shown = Quoted(form);
    write!(text, "  toxic {number}: {shown}\n")?;
    match fault {
        ToxicsFault::Short(ShortFault::BadForm, _) => add_bad_form(text, alloc, form),
        ToxicsFault::Short(ShortFault::DoubleKey, _) => add_double_key(text, form),
        ToxicsFault::Short(ShortFault::Toxic(fault), _) => {
            add_toxic_fault(text, alloc, fault, form)
        }
        ToxicsFault::TooMany(_) => Ok(Rest::Words),
    }
}

/// The number of the toxic that a fault is about.
fn number_of(fault: &ToxicsFault) -> usize {
    match fault {
        ToxicsFault::Short(_, number) => *number,
        ToxicsFault::TooMany(number) => *number,
    }
}

/// The short form that a fault is about.
pub(crate) fn form_of<'a>(fault: &ToxicsFault, inputs: &Inputs<'a>) -> Option<&'a str> {
    inputs.toxics.get(number_of(fault).checked_sub(1)?).copied()
}

/// Adds why a toxic is refused.
fn add_toxic_fault(
    text: &mut String,
    alloc: Global,
    fault: &ToxicFault,
    form: &str,
) -> Result<Rest, AllocError> {
    match fault {
        ToxicFault::UnknownType | ToxicFault::UnknownAttribute => {
            match UnknownName::in_form(form) {
                Some(unknown) => unknown.add(text, alloc),
                None => Ok(Rest::Words),
            }
        }
        ToxicFault::OutOfRange => add_out_of_range(text, form),
        ToxicFault::Variation => Ok(Rest::Words),
        ToxicFault::ToxicityNotThousandths => {
            let unit = KeyUnit::Thousandths.words();
            write!(text, "  toxicity is in whole {unit}\n")?;
            Ok(Rest::Nothing)
        }
    }
}

/// Adds what is wrong in a text that is no short form, and what was meant.
fn add_bad_form(text: &mut String, alloc: Global, form: &str) -> Result<Rest, AllocError> {
    let Some(mistake) = mistake_in(form) else {
        return Ok(Rest::Words);
    };
    write!(text, "  {mistake}\n")?;
    match meant_form(alloc, form)? {
        Some(meant) => {
            write!(text, "  write {meant}\n")?;
            Ok(Rest::Nothing)
        }
        None => Ok(Rest::Words),
    }
}

/// Adds the key that stands twice.
fn add_double_key(text: &mut String, form: &str) -> Result<Rest, AllocError> {
    let (_, pairs) = form.split_once(':').unwrap_or((form, ""));
    for pair in pairs.split(',') {
        let key = key_of(pair);
        if is_double(pairs, key) {
            write!(text, "  {key} stands twice; keep one of them\n")?;
            return Ok(Rest::Nothing);
        }
    }
    Ok(Rest::Words)
}

fn is_double(pairs: &str, key: &str) -> bool {
    1 < pairs.split(',').filter(|pair| key_of(pair) == key).count()
}

fn key_of(pair: &str) -> &str {
    match pair.split_once('=') {
        Some((key, _)) => key,
        None => pair,
    }
}

/// Adds the range of the attribute that is out of it.
fn add_out_of_range(text: &mut String, form: &str) -> Result<Rest, AllocError> {
    let (name, pairs) = form.split_once(':').unwrap_or((form, ""));
    let Some(toxic) = Toxic::of_name(name) else {
        return Ok(Rest::Words);
    };
    for attribute in toxic.attributes() {
        if !attribute.limits.has(value_in(pairs, attribute.name)) {
            add_range(text, attribute)?;
            return Ok(Rest::Nothing);
        }
    }
    Ok(Rest::Words)
}

/// The value of a key: 0 if it is absent.
fn value_in(pairs: &str, key: &str) -> u64 {
    let Some(pair) = pairs.split(',').find(|pair| key_of(pair) == key) else {
        return 0;
    };
    match pair.split_once('=') {
        Some((_, value)) => value.parse().unwrap_or(u64::MAX),
        None => 0,
    }
}
