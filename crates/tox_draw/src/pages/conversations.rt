//! The conversations of a page: the streams of each of the first links, with their pictures.
ghost use Rattle.std.specs.Prelude.{◌≤◌, length, string_bytes, take, IfOk};
ghost use Rattle.tox_draw.specs.Axes.{axis_of};
ghost use Rattle.tox_draw.specs.pages.Conversations.{AreSections, IsBothSection, IsOneSection, IsSection, MayShow};
ghost use Rattle.tox_draw.specs.pages.Pages.{ShowsSome};
ghost use Rattle.tox_text.specs.Printing.{IsWorking};

use crate::pages::fault::PageFault;
use crate::pages::link_logs::LinkLogs;
use crate::pages::log_store::LogStore;
use crate::pages::page::print_text;
use crate::pages::row::Row;
use crate::pages::section::{push_both_section, push_one_section};
use crate::recorded::{Extent, drawn_to, extent_of};
use crate::setting::Setting;
use std::alloc::{AllocError, Global};
use tox_log::LogFault;
use tox_text::Printer;
use tox_time::{Micros, Sink};

/// Prints the conversations of so many of the first links.
pub(crate) fn print_sections<S: LogStore, W: Sink>(
    alloc: Global,
    printer: &mut Printer<'_, W>,
    store: &S,
    links: &[LinkLogs],
    count: usize,
) -> Result<(), PageFault>
    requires works { IsWorking W.Sink printer.old }
    requires there { count ≤ length links.now }
    ensures { ShowsSome W.Sink (AreSections (S.known store.now) 1 (take count links.now))
        result printer.old printer.new }
{
    for place in 0..count {
        print_section(alloc, printer, store, &links[place], place as u64 + 1)?;
    }
    Ok(())
}

fn print_section<S: LogStore, W: Sink>(
    alloc: Global,
    printer: &mut Printer<'_, W>,
    store: &S,
    link: &LinkLogs,
    number: u64,
) -> Result<(), PageFault>
    requires { IsWorking W.Sink printer.old }
    ensures { ShowsSome W.Sink (IsSection (S.known store.now) number link.now)
        result printer.old printer.new }
{
    let text = section_text(alloc, store, link, number)?;
    print_text(printer, text.as_str())
}

/// The conversation of a link, with this number.
fn section_text<S: LogStore>(
    alloc: Global,
    store: &S,
    link: &LinkLogs,
    number: u64,
) -> Result<String, AllocError>
    ensures { IfOk result
        (λ text. IsSection (S.known store.now) number link.now (string_bytes text)) }
{
    let words = link.ended_by();
    match link {
        LinkLogs::One(row) => one_text(alloc, store, words, number, row),
        LinkLogs::Both(up, down) => both_text(alloc, store, words, number, up, down),
    }
}

/// The conversation of a link of which one stream has a log.
fn one_text<S: LogStore>(
    alloc: Global,
    store: &S,
    words: &str,
    number: u64,
    row: &Row,
) -> Result<String, AllocError>
    ensures { IfOk result (λ text.
        IsOneSection (S.known store.now) words.now number row.now (string_bytes text)) }
{
    let extent = extent_in(alloc, store, row.name.as_str())?;
    let latest = latest_in(&extent);
    let picture = picture_in(alloc, store, row, number, &extent, &latest)?;
    let mut text = String::new(alloc);
    push_one_section(&mut text, words, number, &row.facts, &picture)?;
    Ok(text)
}

/// The conversation of a link of which both streams have a log. Its axis of time goes to the latest instant of both.
fn both_text<S: LogStore>(
    alloc: Global,
    store: &S,
    words: &str,
    number: u64,
    up: &Row,
    down: &Row,
) -> Result<String, AllocError>
    ensures { IfOk result (λ text.
        IsBothSection (S.known store.now) words.now number up.now down.now (string_bytes text)) }
{
    let above = extent_in(alloc, store, up.name.as_str())?;
    let below = extent_in(alloc, store, down.name.as_str())?;
    let latest = latest_in(&above).later(latest_in(&below));
    let upstream = picture_in(alloc, store, up, number, &above, &latest)?;
    let downstream = picture_in(alloc, store, down, number, &below, &latest)?;
    let mut text = String::new(alloc);
    push_both_section(
        &mut text,
        words,
        number,
        &up.facts,
        &down.facts,
        &upstream,
        &downstream,
    )?;
    Ok(text)
}

/// The greatest values of the log of this name. None if the log can't be read again.
fn extent_in<S: LogStore>(
    alloc: Global,
    store: &S,
    name: &str,
) -> Result<Option<Extent>, AllocError> {
    let Some(mut reader) = store.open(name) else {
        return Ok(None);
    };
    match extent_of(alloc, &mut reader) {
        Ok(extent) => Ok(Some(extent)),
        Err(LogFault::OutOfMemory) => Err(AllocError),
        Err(_) => Ok(None),
    }
}

fn latest_in(extent: &Option<Extent>) -> Micros {
    match extent {
        Some(extent) => extent.latest,
        None => Micros::ZERO,
    }
}

/// The picture of a row's log in the conversation of this number, whose axis of time goes to an instant. None if the log can't
/// be read again.
fn picture_in<S: LogStore>(
    alloc: Global,
    store: &S,
    row: &Row,
    number: u64,
    extent: &Option<Extent>,
    latest: &Micros,
) -> Result<Option<String>, AllocError>
    ensures { IfOk result (MayShow (axis_of latest.now) (S.known store.now) number row.now) }
{
    let Some(extent) = extent else {
        return Ok(None);
    };
    let Some(mut reader) = store.open(row.name.as_str()) else {
        return Ok(None);
    };
    let setting = Setting::OnPage(number, row.facts.stream);
    match drawn_to(alloc, extent, latest, &mut reader, setting) {
        Ok(picture) => Ok(Some(picture)),
        Err(LogFault::OutOfMemory) => Err(AllocError),
        Err(_) => Ok(None),
    }
}
