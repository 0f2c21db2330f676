//! What a picture says to those who don't see it.
ghost use Rattle.std.specs.Prelude.{◌≡◌, OnOk};
ghost use Rattle.tox_draw.specs.Adding.{AddsText};
ghost use Rattle.tox_draw.specs.Headings.{texts_of};
ghost use Rattle.tox_draw.specs.Sentences.{ended, passed, some_passed, source_ended, title};

use crate::link_end::LinkEnd;
use std::alloc::AllocError;
use tox_time::Micros;

/// Adds the title: the toxics in order.
pub(crate) fn push_title(text: &mut String, forms: &[String]) -> Result<(), AllocError>
    ensures { OnOk result (AddsText text.old text.new (title (texts_of forms.now))) }
{
    let Some((first, others)) = forms.split_first() else {
        return text.push_str("no toxics");
    };
    text.push_str(first.as_str())?;
    for form in others {
        write!(text, ", then {form}")?;
    }
    Ok(())
}

/// Adds the sentence of what passed a point of the link.
pub(crate) fn push_passed(
    text: &mut String,
    word: &str,
    total: u64,
    last: &Micros,
) -> Result<(), AllocError>
    ensures { OnOk result (AddsText text.old text.new (passed word.now total last.now)) }
{
    if total == 0 {
        write!(text, " {word} 0 B.")
    } else {
        push_some_passed(text, word, total, last.get())
    }
}

#[tactic(auto, unfolding(crate::specs::Sentences::some_passed))]
/// Adds the sentence of bytes that passed a point of the link, the last at an instant.
fn push_some_passed(text: &mut String, word: &str, total: u64, last: u64) -> Result<(), AllocError>
    ensures { OnOk result (AddsText text.old text.new (some_passed word.now total last)) }
{
    write!(text, " {word} {total} B, the last at {last} us.")
}

/// Adds the sentence of the source's end, which was a reset or not.
pub(crate) fn push_source_end(
    text: &mut String,
    end: &Option<Micros>,
    is_reset: bool,
) -> Result<(), AllocError>
    ensures { OnOk result (AddsText text.old text.new (source_ended end.now is_reset)) }
{
    match end {
        Some(instant) => {
            let instant = instant.get();
            if is_reset {
                write!(text, " The source was reset at {instant} us.")
            } else {
                write!(text, " The source ended at {instant} us.")
            }
        }
        None => text.push_str(" The source stayed quiet."),
    }
}

/// Adds the sentence of the link's end.
pub(crate) fn push_end(text: &mut String, end: &LinkEnd) -> Result<(), AllocError>
    ensures { OnOk result (AddsText text.old text.new (ended end.now)) }
{
    match end.instant() {
        Some(instant) => {
            let word = end.word();
            let instant = instant.get();
            write!(text, " The link ended {word} at {instant} us.")
        }
        None => text.push_str(" The link stayed open."),
    }
}
