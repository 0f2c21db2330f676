//! Toxics as short forms without what is as it is by default.
ghost use Rattle.std.specs.Prelude.{◌≡◌, ◌≤◌, ◌<◌, ◌++◌, codes, length, map, string_bytes, IfOk, OnOk};
ghost use Rattle.std.specs.List.{zip};
ghost use Rattle.std.specs.Str.{IsCharBoundary};
ghost use Rattle.tox_draw.specs.Adding.{AddsText};
ghost use Rattle.tox_draw.specs.Forms.{bare, chosen_forms, cut_form, form, form_if, in_parentheses, is_wanted, mark_behind, next_mark, pair, pairs};
ghost use Rattle.tox_defs.specs.Flow.{chain_draws};
ghost use Rattle.tox_words.specs.Draw.{draws_of};

use crate::parts::push_word;
use std::alloc::{AllocError, Global};
use tox_defs::{ABSENT_VALUE, Attribute, Chain, Entry, MAX_TOXICITY};
use tox_words::{Drawing, Words};

/// The longest form that the heading shows whole.
const LONGEST: usize = 94;

/// How many characters of a longer one it shows.
const CUT: usize = 91;

/// The short forms of a chain's toxics under these words, in order.
pub(crate) fn forms_of(
    alloc: Global,
    chain: &Chain,
    words: &Words,
) -> Result<Vec<String>, AllocError> {
    let drawing = Drawing::new(chain.lanes(), words);
    let mut forms = Vec::new(alloc);
    for (place, entry) in chain.entries().iter().enumerate() {
        let mut form = String::new(alloc);
        push_form(&mut form, entry, entry.is_applied(place, &drawing))?;
        forms.push(form)?;
    }
    Ok(forms)
}

/// The short forms of the toxics of a chain that are applied under these words, or of the others, in order, separated by spaces.
pub(crate) fn chosen_toxics(
    alloc: Global,
    chain: &Chain,
    words: &Words,
    applied: bool,
) -> Result<String, AllocError>
    ensures { IfOk result (λ text. string_bytes text
        ≡ chosen_forms (chain_draws chain.now words.now) applied (codes "") 0 chain.now.entries) }
{
    let drawing = Drawing::new(chain.lanes(), words);
    let mut text = String::new(alloc);
    push_chosen(&mut text, chain.entries(), &drawing, applied)?;
    Ok(text)
}

/// Adds the short forms of the toxics that are applied, or of the others.
fn push_chosen(
    text: &mut String,
    entries: &[Entry],
    drawing: &Drawing<'_>,
    applied: bool,
) -> Result<(), AllocError>
    ensures { OnOk result (AddsText text.old text.new
        (chosen_forms (draws_of drawing.now) applied (codes "") 0 entries.now)) }
{
    let mut mark = "";
    for (place, entry) in entries.iter().enumerate() {
        let wanted = is_wanted(applied, entry.is_applied(place, drawing));
        mark = push_if(text, mark, entry, wanted)?;
    }
    Ok(())
}

/// Whether a toxic is wanted, where the applied ones are, or the others.
fn is_wanted(applied: bool, is_applied: bool) -> bool
    ensures { result ≡ is_wanted applied is_applied }
{
    if applied { is_applied } else { !is_applied }
}

/// Adds the short form of a toxic behind a mark, if it is wanted. Returns what stands before the next one.
fn push_if(
    text: &mut String,
    mark: &'static str,
    entry: &Entry,
    wanted: bool,
) -> Result<&'static str, AllocError>
    ensures adds { OnOk result (AddsText text.old text.new (form_if mark.now entry.now wanted)) }
    ensures next { IfOk result (λ next. next.now ≡ mark_behind mark.now wanted) }
{
    if !wanted {
        return Ok(mark);
    }
    push_marked(text, mark, entry)?;
    Ok(" ")
}

/// Adds the short form of a toxic behind a mark.
#[tactic(auto, using(crate::proofs::Growing::adds_then))]
fn push_marked(text: &mut String, mark: &str, entry: &Entry) -> Result<(), AllocError>
    ensures { OnOk result (AddsText text.old text.new (mark.now ++ bare entry.now)) }
{
    push_word(text, mark)?;
    push_bare(text, entry)
}

/// The forms as the heading shows them: one of more than 94 characters is cut.
pub(crate) fn cut_forms(alloc: Global, forms: &[String]) -> Result<Vec<String>, AllocError> {
    let mut shown = Vec::new(alloc);
    for form in forms {
        shown.push(cut_form(alloc, form.as_str())?)?;
    }
    Ok(shown)
}

/// A form as the heading shows it. One that has no character's edge at the cut stays whole; a toxic's form has one.
fn cut_form(alloc: Global, form: &str) -> Result<String, AllocError>
    ensures short { length form.now ≤ 94
        → IfOk result (λ shown. string_bytes shown ≡ form.now) }
    ensures long { 94 < length form.now → IsCharBoundary form.now 91
        → IfOk result (λ shown. string_bytes shown ≡ cut_form form.now) }
{
    if form.len() <= LONGEST {
        return String::from_str(alloc, form);
    }
    match form.split_at_checked(CUT) {
        Some((front, _)) => format!(in alloc; "{front}..."),
        None => String::from_str(alloc, form),
    }
}

/// Adds the short form of a toxic. One that isn't applied stands in parentheses.
pub(crate) fn push_form(text: &mut String, entry: &Entry, applied: bool) -> Result<(), AllocError>
    ensures { OnOk result (AddsText text.old text.new (form entry.now applied)) }
{
    if applied {
        push_bare(text, entry)
    } else {
        push_in_parentheses(text, entry)
    }
}

#[tactic(auto, using(crate::proofs::Growing::adds_then), unfolding(crate::specs::Forms::in_parentheses))]
fn push_in_parentheses(text: &mut String, entry: &Entry) -> Result<(), AllocError>
    ensures { OnOk result (AddsText text.old text.new (in_parentheses entry.now)) }
{
    push_word(text, "(")?;
    push_bare(text, entry)?;
    push_word(text, ")")
}

/// Adds the short form of a toxic without parentheses.
#[tactic(auto, using(crate::proofs::Growing::adds_then), unfolding(crate::specs::Forms::bare))]
fn push_bare(text: &mut String, entry: &Entry) -> Result<(), AllocError>
    ensures { OnOk result (AddsText text.old text.new (bare entry.now)) }
{
    push_word(text, entry.toxic.name())?;
    let values = entry.toxic.values();
    let toxicity = u64::from(entry.toxicity);
    push_pairs(text, entry.toxic.attributes(), &values, toxicity)
}

/// Adds a colon and the pairs whose values aren't the default, separated by commas.
fn push_pairs(
    text: &mut String,
    attributes: &[Attribute],
    values: &[u64],
    toxicity: u64,
) -> Result<(), AllocError>
    requires { length attributes.now ≡ length values.now }
    ensures { OnOk result (AddsText text.old text.new
        (pairs (codes ":") (zip (map (λ attribute. attribute.name.now) attributes.now) values.now) toxicity)) }
{
    let mut mark = ":";
    for (place, attribute) in attributes.iter().enumerate() {
        mark = push_pair(text, mark, attribute.name, values[place], ABSENT_VALUE)?;
    }
    push_pair(text, mark, "toxicity", toxicity, u64::from(MAX_TOXICITY))?;
    Ok(())
}

/// Adds a pair behind a mark, unless its value is the default. Returns what stands before the next pair.
fn push_pair(
    text: &mut String,
    mark: &'static str,
    key: &str,
    value: u64,
    default: u64,
) -> Result<&'static str, AllocError>
    ensures adds { OnOk result (AddsText text.old text.new (pair mark.now key.now value default)) }
    ensures next { IfOk result (λ next. next.now ≡ next_mark mark.now value default) }
{
    if value == default {
        return Ok(mark);
    }
    write!(text, "{mark}{key}={value}")?;
    Ok(",")
}
