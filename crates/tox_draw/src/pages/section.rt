//! The conversation of a link.
ghost use Rattle.std.specs.Prelude.{OnOk};
ghost use Rattle.tox_draw.specs.Adding.{AddsText};
ghost use Rattle.tox_draw.specs.pages.Sections.{both_body, both_section, one_body, one_section, section_front, section_scroll, section_tag, section_title, stream_table_end, stream_table_head};

use crate::pages::escaping::Escaped;
use crate::pages::figure::push_figure;
use crate::pages::row::StreamFacts;
use crate::pages::stream_row::push_stream_row;
use crate::parts::push_word;
use std::alloc::AllocError;

/// The head of a conversation's table.
const TABLE_HEAD: &str = "\
<table>
<thead>
<tr><th scope=\"col\">Stream</th><th class=\"number\" scope=\"col\">Sent, B</th><th class=\"number\" scope=\"col\">Passed, B</th>\
<th scope=\"col\">Applied toxics</th><th scope=\"col\">Skipped toxics</th><th scope=\"col\">Ending, ms</th><th scope=\"col\">Verdict</th>\
<th class=\"number\" scope=\"col\">Late, median, ms</th><th class=\"number\" scope=\"col\">p99</th><th class=\"number\" scope=\"col\">max</th></tr>
</thead>
<tbody>
";

/// Behind the rows of a conversation's table.
const TABLE_END: &str = "</tbody>\n</table>\n</div>\n";

/// Adds the conversation of a link of which one stream has a log. Who ended it is reported in these words.
#[tactic(auto, using(crate::proofs::Growing::adds_then), unfolding(crate::specs::pages::Sections::one_section))]
pub(crate) fn push_one_section(
    text: &mut String,
    words: &str,
    number: u64,
    facts: &StreamFacts,
    picture: &Option<String>,
) -> Result<(), AllocError>
    ensures { OnOk result (AddsText text.old text.new
        (one_section words.now number facts.now picture.now)) }
{
    push_section_front(text, words, number, facts)?;
    push_one_body(text, number, facts, picture)?;
    push_word(text, "</section>\n")
}

/// Adds the conversation of a link of which both streams have a log.
#[tactic(auto, using(crate::proofs::Growing::adds_then), unfolding(crate::specs::pages::Sections::both_section))]
pub(crate) fn push_both_section(
    text: &mut String,
    words: &str,
    number: u64,
    up: &StreamFacts,
    down: &StreamFacts,
    upstream: &Option<String>,
    downstream: &Option<String>,
) -> Result<(), AllocError>
    ensures { OnOk result (AddsText text.old text.new
        (both_section words.now number up.now down.now upstream.now downstream.now)) }
{
    push_section_front(text, words, number, up)?;
    push_both_body(text, number, up, down, upstream, downstream)?;
    push_word(text, "</section>\n")
}

/// Adds a conversation up to the rows of its streams.
#[tactic(auto, using(crate::proofs::Growing::adds_then), unfolding(crate::specs::pages::Sections::section_front))]
fn push_section_front(
    text: &mut String,
    words: &str,
    number: u64,
    facts: &StreamFacts,
) -> Result<(), AllocError>
    ensures { OnOk result (AddsText text.old text.new (section_front words.now number facts.now)) }
{
    push_section_tag(text, number)?;
    push_section_title(text, facts.proxy.as_str(), facts.link, words)?;
    push_section_scroll(text, number)?;
    push_table_head(text)
}

#[tactic(auto, unfolding(crate::specs::pages::Sections::section_tag))]
fn push_section_tag(text: &mut String, number: u64) -> Result<(), AllocError>
    ensures { OnOk result (AddsText text.old text.new (section_tag number)) }
{
    write!(
        text,
        "<section aria-labelledby=\"link-{number}\">\n<h3 id=\"link-{number}\">"
    )
}

/// Adds which link it is, and who ended it.
#[tactic(auto, unfolding(crate::specs::pages::Sections::section_title))]
fn push_section_title(
    text: &mut String,
    proxy: &str,
    link: u64,
    words: &str,
) -> Result<(), AllocError>
    ensures { OnOk result (AddsText text.old text.new (section_title proxy.now link words.now)) }
{
    let proxy = Escaped(proxy);
    writeln!(text, "{proxy} {link}: {words}</h3>")
}

#[tactic(auto, unfolding(crate::specs::pages::Sections::section_scroll))]
fn push_section_scroll(text: &mut String, number: u64) -> Result<(), AllocError>
    ensures { OnOk result (AddsText text.old text.new (section_scroll number)) }
{
    writeln!(
        text,
        "<div class=\"wide\" role=\"region\" tabindex=\"0\" aria-labelledby=\"link-{number}\">"
    )
}

#[tactic(auto, unfolding(crate::specs::pages::Sections::stream_table_head))]
fn push_table_head(text: &mut String) -> Result<(), AllocError>
    ensures { OnOk result (AddsText text.old text.new stream_table_head) }
{
    push_word(text, TABLE_HEAD)
}

#[tactic(auto, unfolding(crate::specs::pages::Sections::stream_table_end))]
fn push_table_end(text: &mut String) -> Result<(), AllocError>
    ensures { OnOk result (AddsText text.old text.new stream_table_end) }
{
    push_word(text, TABLE_END)
}

/// Adds the row of a stream, and its picture.
#[tactic(auto, using(crate::proofs::Growing::adds_then), unfolding(crate::specs::pages::Sections::one_body))]
fn push_one_body(
    text: &mut String,
    number: u64,
    facts: &StreamFacts,
    picture: &Option<String>,
) -> Result<(), AllocError>
    ensures { OnOk result (AddsText text.old text.new (one_body number facts.now picture.now)) }
{
    push_stream_row(text, facts)?;
    push_table_end(text)?;
    push_figure(text, facts, number, picture)
}

/// Adds the rows of both streams, and their pictures.
#[tactic(auto, using(crate::proofs::Growing::adds_then), unfolding(crate::specs::pages::Sections::both_body))]
fn push_both_body(
    text: &mut String,
    number: u64,
    up: &StreamFacts,
    down: &StreamFacts,
    upstream: &Option<String>,
    downstream: &Option<String>,
) -> Result<(), AllocError>
    ensures { OnOk result (AddsText text.old text.new
        (both_body number up.now down.now upstream.now downstream.now)) }
{
    push_stream_row(text, up)?;
    push_stream_row(text, down)?;
    push_table_end(text)?;
    push_figure(text, up, number, upstream)?;
    push_figure(text, down, number, downstream)
}
