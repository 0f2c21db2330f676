//! An explanation of a fault.
use crate::address::add_address_trouble;
use crate::failure::Failure;
use crate::files::{add_proxies, add_reason, add_stream};
use crate::inputs::Inputs;
use crate::line_fault::{explain_arrivals, explain_log};
use crate::listening::explain_listening;
use crate::populate::explain_populate;
use crate::random_words::add_bad_word;
use crate::script::explain_script;
use crate::short_form::explain_toxics;
use std::alloc::{AllocError, Global};
use tox_proxy::WaitFault;

/// What an explanation has still to say.
#[derive(Clone, Copy, PartialEq, Eq)]
pub(crate) enum Rest {
    /// What the fault means and what to do.
    Words,
    Nothing,
}

/// The lines below a fault's line. Each is indented by two spaces.
pub fn explain(
    alloc: Global,
    failure: &Failure<'_>,
    inputs: &Inputs<'_>,
) -> Result<String, AllocError> {
    let mut text = String::new(alloc);
    if add_place(&mut text, alloc, failure, inputs)? == Rest::Words {
        let form = failure.form();
        let (means, advice) = (form.means, form.advice);
        write!(text, "  {means}; {advice}\n")?;
    }
    Ok(text)
}

/// Adds where the fault is and what is there.
fn add_place(
    text: &mut String,
    alloc: Global,
    failure: &Failure<'_>,
    inputs: &Inputs<'_>,
) -> Result<Rest, AllocError> {
    match failure {
        Failure::Toxics(fault) => return explain_toxics(text, alloc, fault, inputs),
        Failure::Script(fault) => return explain_script(text, alloc, fault, inputs),
        Failure::Config(fault) => return explain_populate(text, alloc, fault, inputs),
        Failure::Dry(fault) => return explain_arrivals(text, fault, inputs),
        Failure::Log(fault, reason) => explain_log(text, fault, *reason, inputs)?,
        Failure::Serve(fault) => return explain_listening(text, fault, inputs),
        Failure::Words(fault) => add_bad_word(text, fault, inputs)?,
        Failure::File(_, Some(reason)) => add_reason(text, reason)?,
        Failure::UnknownProxy(name) => add_proxies(text, alloc, name, inputs)?,
        Failure::BadStream => add_stream(text, alloc, inputs)?,
        Failure::Wait(WaitFault::BadAddress(address)) => add_address_trouble(text, address)?,
        Failure::Wait(WaitFault::NotReady(address)) if address.contains('/') => {
            add_address_trouble(text, address)?;
        }
        Failure::LogRefused(_, refusal) => add_reason(text, refusal)?,
        Failure::FilesRefused(_, refusal) => add_reason(text, refusal)?,
        _ => {}
    }
    Ok(Rest::Words)
}
