//! What stands before the rows: the head, the totals and the head of the table.
ghost use Rattle.std.specs.Prelude.{length, OnOk};
ghost use Rattle.tox_draw.specs.Adding.{AddsText};
ghost use Rattle.tox_draw.specs.Style.{style};
ghost use Rattle.tox_draw.specs.pages.Escaping.{html};
ghost use Rattle.tox_draw.specs.pages.Fronts.{body_start, page_front, page_head, page_start, page_style, table_head};

use crate::pages::escaping::Escaped;
use crate::pages::row::{Refusal, Row};
use crate::pages::style::{PAGE_START, PAGE_STYLE};
use crate::pages::totals::push_totals;
use crate::parts::push_word;
use crate::style::STYLE;
use std::alloc::AllocError;

/// Behind the totals.
const TABLE_HEAD: &str = "\
</dl>
<div class=\"wide\" role=\"region\" tabindex=\"0\" aria-labelledby=\"links\">
<table>
<caption id=\"links\">The links. Bytes that the client and the server sent, and those that passed.</caption>
<thead>
<tr><th scope=\"col\">Proxy</th><th class=\"number\" scope=\"col\">Link</th><th scope=\"col\">Ended</th>\
<th class=\"number\" scope=\"col\">Client sent, B</th><th class=\"number\" scope=\"col\">passed</th><th scope=\"col\">Toxics upstream</th>\
<th class=\"number\" scope=\"col\">Server sent, B</th><th class=\"number\" scope=\"col\">passed</th><th scope=\"col\">Toxics downstream</th>\
<th scope=\"col\">Verdict</th><th class=\"number\" scope=\"col\">Late, max, ms</th></tr>
</thead>
<tbody>
";

/// Adds all that stands before the rows of a page with this title. The rows are of so many links.
#[tactic(auto, using(crate::proofs::Growing::adds_then), unfolding(crate::specs::pages::Fronts::page_front))]
pub(crate) fn push_front(
    text: &mut String,
    title: &str,
    refusals: &[Refusal],
    rows: &[Row],
    links: u64,
) -> Result<(), AllocError>
    ensures { OnOk result (AddsText text.old text.new
        (page_front title.now (length refusals.now) rows.now links)) }
{
    push_page_head(text, title)?;
    push_body_start(text, title)?;
    push_totals(text, refusals, rows, links)?;
    push_table_head(text)
}

/// Adds the head of the page, with its style and that of its pictures.
#[tactic(auto, using(crate::proofs::Growing::adds_then), unfolding(crate::specs::pages::Fronts::page_head))]
fn push_page_head(text: &mut String, title: &str) -> Result<(), AllocError>
    ensures { OnOk result (AddsText text.old text.new (page_head title.now)) }
{
    push_page_start(text)?;
    push_escaped(text, title)?;
    push_page_style(text)?;
    push_picture_style(text)
}

fn push_escaped(text: &mut String, word: &str) -> Result<(), AllocError>
    ensures { OnOk result (AddsText text.old text.new (html word.now)) }
{
    let word = Escaped(word);
    write!(text, "{word}")
}

#[tactic(auto, unfolding(crate::specs::pages::Fronts::page_start))]
fn push_page_start(text: &mut String) -> Result<(), AllocError>
    ensures { OnOk result (AddsText text.old text.new page_start) }
{
    push_word(text, PAGE_START)
}

#[tactic(auto, unfolding(crate::specs::pages::Fronts::page_style))]
fn push_page_style(text: &mut String) -> Result<(), AllocError>
    ensures { OnOk result (AddsText text.old text.new page_style) }
{
    push_word(text, PAGE_STYLE)
}

#[tactic(auto, unfolding(crate::specs::Style::style))]
fn push_picture_style(text: &mut String) -> Result<(), AllocError>
    ensures { OnOk result (AddsText text.old text.new style) }
{
    push_word(text, STYLE)
}

/// Adds the title, up to the totals.
#[tactic(auto, unfolding(crate::specs::pages::Fronts::body_start))]
fn push_body_start(text: &mut String, title: &str) -> Result<(), AllocError>
    ensures { OnOk result (AddsText text.old text.new (body_start title.now)) }
{
    let title = Escaped(title);
    write!(text, "</head>\n<body>\n<main>\n<h1>{title}</h1>\n<dl>\n")
}

#[tactic(auto, unfolding(crate::specs::pages::Fronts::table_head))]
fn push_table_head(text: &mut String) -> Result<(), AllocError>
    ensures { OnOk result (AddsText text.old text.new table_head) }
{
    push_word(text, TABLE_HEAD)
}
