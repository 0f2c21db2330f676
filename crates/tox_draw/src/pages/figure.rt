//! The picture of a log, in a conversation.
ghost use Rattle.std.specs.Prelude.{OnOk};
ghost use Rattle.tox_draw.specs.Adding.{AddsText};
ghost use Rattle.tox_draw.specs.Settings.{id_end};
ghost use Rattle.tox_draw.specs.pages.Figures.{caption_of, drawn, figure, figure_head, placed_figure, scrolled};

use crate::pages::escaping::Escaped;
use crate::pages::row::StreamFacts;
use crate::parts::push_word;
use crate::setting::{IdEnd, Setting};
use std::alloc::AllocError;

/// Adds the picture of a log, in the conversation of this number. Without a picture a sentence says that the log couldn't be
/// read again.
pub(crate) fn push_figure(
    text: &mut String,
    facts: &StreamFacts,
    number: u64,
    picture: &Option<String>,
) -> Result<(), AllocError>
    ensures { OnOk result (AddsText text.old text.new (figure facts.now number picture.now)) }
{
    push_placed(text, facts, Setting::OnPage(number, facts.stream), picture)
}

/// Adds the picture of a log that stands so, with its caption.
#[tactic(auto, using(crate::proofs::Growing::adds_then), unfolding(crate::specs::pages::Figures::placed_figure))]
fn push_placed(
    text: &mut String,
    facts: &StreamFacts,
    setting: Setting,
    picture: &Option<String>,
) -> Result<(), AllocError>
    ensures { OnOk result
        (AddsText text.old text.new (placed_figure facts.now (id_end setting) picture.now)) }
{
    push_figure_head(text, setting)?;
    push_caption(text, facts.proxy.as_str(), facts.link, facts.stream.name())?;
    push_drawn(text, setting, picture)?;
    push_word(text, "</figure>\n")
}

#[tactic(auto, unfolding(crate::specs::pages::Figures::figure_head))]
fn push_figure_head(text: &mut String, setting: Setting) -> Result<(), AllocError>
    ensures { OnOk result (AddsText text.old text.new (figure_head (id_end setting))) }
{
    let end = IdEnd(setting);
    write!(
        text,
        "<figure id=\"log{end}\">\n<figcaption id=\"name{end}\">"
    )
}

/// Adds which stream a picture shows.
#[tactic(auto, unfolding(crate::specs::pages::Figures::caption_of))]
fn push_caption(text: &mut String, proxy: &str, link: u64, stream: &str) -> Result<(), AllocError>
    ensures { OnOk result (AddsText text.old text.new (caption_of proxy.now link stream.now)) }
{
    let proxy = Escaped(proxy);
    writeln!(text, "{proxy} {link} {stream}</figcaption>")
}

fn push_drawn(
    text: &mut String,
    setting: Setting,
    picture: &Option<String>,
) -> Result<(), AllocError>
    ensures { OnOk result (AddsText text.old text.new (drawn (id_end setting) picture.now)) }
{
    match picture {
        Some(picture) => push_scrolled(text, setting, picture.as_str()),
        None => push_word(text, "<p>The log couldn't be read again.</p>\n"),
    }
}

/// Adds a picture in a part of the page that scrolls where it is narrow.
#[tactic(auto, unfolding(crate::specs::pages::Figures::scrolled))]
fn push_scrolled(text: &mut String, setting: Setting, picture: &str) -> Result<(), AllocError>
    ensures { OnOk result (AddsText text.old text.new (scrolled (id_end setting) picture.now)) }
{
    let end = IdEnd(setting);
    writeln!(
        text,
        "<div class=\"wide\" role=\"group\" tabindex=\"0\" aria-labelledby=\"name{end}\">\n{picture}</div>"
    )
}
