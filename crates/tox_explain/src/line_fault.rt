//! Faults of one line of the arrivals or of a log.
use crate::explanation::Rest;
use crate::files::add_reason;
use crate::inputs::Inputs;
use crate::text_place::add_line;
use std::alloc::AllocError;
use std::io;
use tox_proxy::{DryFault, ReplayFault};
use tox_text::instant_of;

/// How many bytes of a line are shown at most, before it is quoted.
const MAX_LINE: usize = 4_096;

/// Adds the line of the arrivals, and what is wrong in it as far as its signs tell.
pub(crate) fn explain_arrivals(
    text: &mut String,
    fault: &DryFault,
    inputs: &Inputs<'_>,
) -> Result<Rest, AllocError> {
    match fault {
        DryFault::BadLine(number) => match add_numbered(text, *number, inputs)? {
            Some(line) => {
                let why = match str::from_utf8(line) {
                    Ok(line) => trouble_in(line),
                    Err(_) => "its bytes aren't UTF-8",
                };
                write!(text, "  {why}\n")?;
                Ok(Rest::Nothing)
            }
            None => Ok(Rest::Words),
        },
        DryFault::Arrival(_, number) => {
            add_numbered(text, *number, inputs)?;
            Ok(Rest::Words)
        }
        _ => Ok(Rest::Words),
    }
}

/// Adds the line of a log, or why the system refused its file.
pub(crate) fn explain_log(
    text: &mut String,
    fault: &ReplayFault<'_>,
    reason: Option<io::Error>,
    inputs: &Inputs<'_>,
) -> Result<(), AllocError> {
    match (fault, reason) {
        (ReplayFault::BadLog(_, number), _) => {
            add_numbered(text, *number, inputs)?;
        }
        (ReplayFault::LogTooDeep(_, number), _) => {
            add_numbered(text, *number, inputs)?;
        }
        (ReplayFault::Unreadable(_), Some(reason)) => add_reason(text, &reason)?,
        _ => {}
    }
    Ok(())
}

/// Adds the line of a number from 1, and gives it whole.
fn add_numbered<'a>(
    text: &mut String,
    number: u64,
    inputs: &Inputs<'a>,
) -> Result<Option<&'a [u8]>, AllocError> {
    let Some((name, number, line)) = line_at(number, inputs) else {
        return Ok(None);
    };
    add_line(text, name, number, valid_front(line))?;
    Ok(Some(line))
}

/// The line of a number, with the name of its text.
fn line_at<'a>(number: u64, inputs: &Inputs<'a>) -> Option<(&'a str, usize, &'a [u8])> {
    let lines = inputs.lines?;
    let number = usize::try_from(number).ok()?;
    let line = lines
        .bytes
        .split(|byte| *byte == b'\n')
        .nth(number.checked_sub(1)?)?;
    Some((lines.name, number, line))
}

/// The bytes of a line up to the first that is no UTF-8, as many as may be shown.
fn valid_front(line: &[u8]) -> &str {
    let bytes = line.get(..MAX_LINE).unwrap_or(line);
    match str::from_utf8(bytes) {
        Ok(text) => text,
        Err(error) => str::from_utf8(bytes.get(..error.valid_up_to()).unwrap_or(&[])).unwrap_or(""),
    }
}

/// What is wrong in a malformed line of the arrivals text.
fn trouble_in(line: &str) -> &'static str {
    if line.is_empty() {
        return "the line is empty";
    }
    if line.ends_with('\r') {
        return "a carriage return stands at its end";
    }
    if line.contains('\t') {
        return "a tabulator stands in it; parts are separated by one space";
    }
    if line.starts_with(' ') || line.ends_with(' ') || line.contains("  ") {
        return "parts are separated by one space, and none stands before or behind them";
    }
    let (instant, event) = line.split_once(' ').unwrap_or((line, ""));
    if instant_of(instant.as_bytes()).is_none() {
        return "it begins with an instant: whole microseconds, 0 to 10^15";
    }
    match event.strip_prefix("data ") {
        Some(digits) if digits.contains(' ') => "no space stands between the bytes",
        Some(digits) if digits.len() % 2 == 1 => {
            "each byte has two hexadecimal digits, and one is missing"
        }
        Some(_) => "each byte has two hexadecimal digits, 0 to 9 and a to f",
        None if event == "data" => "the bytes are missing behind `data`",
        None => "behind the instant stands `data` with bytes, or `eof`",
    }
}
