//! Where a picture stands.
ghost use Rattle.std.specs.Prelude.{OnOk, Some};
ghost use Rattle.std.specs.Fmt.{WritesOnOk};
ghost use Rattle.tox_draw.specs.Adding.{AddsText};
ghost use Rattle.tox_draw.specs.Settings.{id_end, own_style, place_end};
ghost use Rattle.tox_draw.specs.Style.{style};

use crate::parts::push_word;
use crate::style::STYLE;
use std::alloc::AllocError;
use std::fmt;
use tox_time::Stream;

/// Where a picture stands.
#[derive(Clone, Copy)]
pub(crate) enum Setting {
    /// In a text of its own.
    Alone,
    /// On a page that has the style, with the number of its link there and its stream, which no other picture of the page has.
    OnPage(u64, Stream),
}

/// What the ids of a picture end with: on a page its place there, so that no two ids are alike.
#[derive(Clone, Copy)]
pub(crate) struct IdEnd(pub(crate) Setting);

impl fmt::Display for IdEnd {
    ghost output = { λ end. Some (id_end end.0) };

    fn fmt<W: fmt::Write>(&self, f: &mut fmt::Formatter<W>) -> fmt::Result {
        match self.0 {
            Setting::Alone => Ok(()),
            Setting::OnPage(number, stream) => write_place(f, number, stream.name()),
        }
    }
}

#[tactic(auto, unfolding(crate::specs::Settings::place_end))]
fn write_place<W: fmt::Write>(f: &mut fmt::Formatter<W>, number: u64, stream: &str) -> fmt::Result
    ensures { WritesOnOk W.write_str_gives f.old result (place_end number stream.now) f.new }
{
    write!(f, "-{number}-{stream}")
}

/// Adds the style of a picture that stands alone.
pub(crate) fn push_own_style(text: &mut String, setting: &Setting) -> Result<(), AllocError>
    ensures { OnOk result (AddsText text.old text.new (own_style setting.now)) }
{
    match setting {
        Setting::Alone => push_style(text),
        Setting::OnPage(_, _) => push_word(text, ""),
    }
}

#[tactic(auto, unfolding(crate::specs::Style::style))]
fn push_style(text: &mut String) -> Result<(), AllocError>
    ensures { OnOk result (AddsText text.old text.new style) }
{
    push_word(text, STYLE)
}
