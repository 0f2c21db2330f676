//! The heading of a picture: its toxics, in one to three lines.
ghost use Rattle.std.specs.Prelude.{◌≡◌, ◌≤◌, ◌<◌, ◌+◌, ◌^◌, length, string_len, OnOk, IfOk, All};
ghost use Rattle.tox_draw.specs.Adding.{AddsText};
ghost use Rattle.tox_draw.specs.Headings.{behind_first, first_on, heading, heading_line_count, heading_line_start, limit_of, no_toxics, rest, rest_lines, texts_of};

use crate::parts::push_word;
use std::alloc::AllocError;

/// The last line of a heading, from 0.
const LAST_LINE: u64 = 2;

/// Where the next form would stand: on a line that has so many characters.
#[derive(Clone, Copy)]
struct HeadingPlace {
    line: u64,
    used: usize,
}

/// Adds the lines of the heading. Returns how many there are.
pub(crate) fn push_heading(text: &mut String, forms: &[String]) -> Result<u64, AllocError>
    ensures adds { OnOk result (AddsText text.old text.new (heading (texts_of forms.now))) }
    ensures lines { IfOk result (λ lines. lines ≡ heading_line_count (texts_of forms.now)) }
    ensures few { IfOk result (λ lines. lines ≤ 3) }
{
    let Some((first, others)) = forms.split_first() else {
        push_no_toxics(text)?;
        return Ok(1);
    };
    push_first(text, first.as_str(), others)
}

/// Adds the first form, and then the others. Returns how many lines there are.
#[tactic(auto, using(crate::proofs::Growing::adds_then), unfolding(crate::specs::Headings::first_on))]
fn push_first(text: &mut String, first: &str, others: &[String]) -> Result<u64, AllocError>
    ensures adds { OnOk result
        (AddsText text.old text.new (first_on first.now (texts_of others.now))) }
    ensures lines { IfOk result
        (λ lines. lines ≡ rest_lines (behind_first first.now) (texts_of others.now)) }
    ensures few { IfOk result (λ lines. lines ≤ 3) }
{
    push_opening(text, 0)?;
    push_word(text, first)?;
    let place = HeadingPlace {
        line: 0,
        used: first.len(),
    };
    push_rest(text, others, place)
}

/// Adds the one line of a chain without toxics.
#[tactic(auto, using(crate::proofs::Growing::adds_then), unfolding(crate::specs::Headings::no_toxics))]
fn push_no_toxics(text: &mut String) -> Result<(), AllocError>
    ensures { OnOk result (AddsText text.old text.new no_toxics) }
{
    push_opening(text, 0)?;
    push_word(text, "no toxics</text>\n")
}

/// Adds the start of a line from 0 to 2.
fn push_opening(text: &mut String, line: u64) -> Result<(), AllocError>
    requires { line ≤ 2 }
    ensures { OnOk result (AddsText text.old text.new (heading_line_start line)) }
{
    let y = 32 + 20 * line;
    write!(text, "<text class=\"chain\" x=\"64\" y=\"{y}\">")
}

/// Adds the other forms, and the end of the last line. Returns how many lines there are.
fn push_rest(text: &mut String, forms: &[String], start: HeadingPlace) -> Result<u64, AllocError>
    requires { start.line ≤ 2 }
    ensures adds { OnOk result (AddsText text.old text.new (rest start (texts_of forms.now))) }
    ensures lines { IfOk result (λ lines. lines ≡ rest_lines start (texts_of forms.now)) }
    ensures few { IfOk result (λ lines. lines ≤ 3) }
{
    let mut place = start;
    for (index, form) in forms.iter().enumerate() {
        if place.used.saturating_add(form.len()).saturating_add(3) <= limit_of(place.line) {
            text.push_str(" &#8594; ")?;
            text.push_str(form.as_str())?;
            place.used = place.used + form.len() + 3;
        } else if place.line == LAST_LINE {
            let more = forms.len() - index;
            write!(text, " + {more} more</text>\n")?;
            return Ok(LAST_LINE + 1);
        } else {
            place.line += 1;
            text.push_str("</text>\n")?;
            push_opening(text, place.line)?;
            text.push_str("&#8594; ")?;
            text.push_str(form.as_str())?;
            place.used = form.len() + 2;
        }
    }
    text.push_str("</text>\n")?;
    Ok(place.line + 1)
}

/// How many characters fit into a line.
fn limit_of(line: u64) -> usize
    ensures { result ≡ limit_of line }
{
    if line == LAST_LINE { 96 } else { 108 }
}
