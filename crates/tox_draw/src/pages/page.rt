//! The page of a report: the list of the links, and then their conversations.
ghost use Rattle.std.specs.Prelude.{◌≡◌, List, false, length, string_bytes, IfOk, OnOk};
ghost use Rattle.tox_draw.specs.declared.pages.row.Refusal.{Refusal as OneRefusal};
ghost use Rattle.tox_draw.specs.declared.pages.row.Row.{Row as OneRow};
ghost use Rattle.tox_draw.specs.pages.Fronts.{page_front};
ghost use Rattle.tox_draw.specs.pages.Links.{link_count};
ghost use Rattle.tox_draw.specs.pages.Pages.{IsPage, IsPageBody, Shows, ShowsSome, WritesPage, link_rows, page_end, page_list, refusal_rows, table_end};
ghost use Rattle.tox_draw.specs.pages.Reports.{KeepsLogs};
ghost use Rattle.tox_draw.specs.pages.Rows.{link_row, refusal_row};
ghost use Rattle.tox_text.specs.Printing.{IsWorking};

use crate::pages::conversations::print_sections;
use crate::pages::fault::PageFault;
use crate::pages::front::push_front;
use crate::pages::link_logs::LinkLogs;
use crate::pages::links::link_count;
use crate::pages::log_store::LogStore;
use crate::pages::ordering::page_links;
use crate::pages::report::Report;
use crate::pages::row::{Refusal, Row};
use crate::pages::table::{push_link_row, push_refusal_row};
use std::alloc::{AllocError, Global};
use tox_text::Part::Word;
use tox_text::Printer;
use tox_time::Sink;

/// Behind the rows.
const TABLE_END: &str = "</tbody>\n</table>\n</div>\n<h2>Conversations</h2>\n";

/// Behind the conversations.
const PAGE_END: &str = "</main>\n</body>\n</html>\n";

impl Report {
    /// Writes the page under a title: the totals, the list of the links, and the conversations of the first links, at most so
    /// many. Their logs are read again. After an `Err` a prefix of the page is written.
    pub fn write<S: LogStore, W: Sink>(
        self,
        alloc: Global,
        store: &S,
        title: &str,
        shown: usize,
        writer: &mut W,
    ) -> Result<(), PageFault>
        requires { W.failed writer.old ≡ false }
        ensures { (refusals : List OneRefusal) (rows : List OneRow) → KeepsLogs self refusals rows
            → WritesPage (S.known store.now) title.now result refusals rows shown
            (W.written writer.old) (W.written writer.new) (W.failed writer.new) }
    {
        let mut printer = Printer::new(writer);
        print_page(alloc, &mut printer, store, title, self, shown)?;
        match printer.finish() {
            Ok(()) => Ok(()),
            Err(_) => Err(PageFault::WriteFault),
        }
    }
}

fn print_page<S: LogStore, W: Sink>(
    alloc: Global,
    printer: &mut Printer<'_, W>,
    store: &S,
    title: &str,
    report: Report,
    shown: usize,
) -> Result<(), PageFault>
    requires { IsWorking W.Sink printer.old }
    ensures { ShowsSome W.Sink
        (IsPage (S.known store.now) title.now report.refusals.items report.rows.items shown)
        result printer.old printer.new }
{
    let Report { refusals, rows } = report;
    print_front(alloc, printer, title, &refusals, &rows)?;
    let links = page_links(alloc, rows)?;
    print_body(alloc, printer, store, &refusals, &links, shown)
}

/// Prints the list, and the conversations of so many of the first links.
fn print_body<S: LogStore, W: Sink>(
    alloc: Global,
    printer: &mut Printer<'_, W>,
    store: &S,
    refusals: &[Refusal],
    links: &[LinkLogs],
    shown: usize,
) -> Result<(), PageFault>
    requires { IsWorking W.Sink printer.old }
    ensures { ShowsSome W.Sink (IsPageBody (S.known store.now) refusals.now links.now shown)
        result printer.old printer.new }
{
    print_list(alloc, printer, refusals, links, shown)?;
    let count = links.len().min(shown);
    print_sections(alloc, printer, store, links, count)?;
    print_page_end(printer)
}

/// Prints all that stands before the rows.
fn print_front<W: Sink>(
    alloc: Global,
    printer: &mut Printer<'_, W>,
    title: &str,
    refusals: &[Refusal],
    rows: &[Row],
) -> Result<(), PageFault>
    requires { IsWorking W.Sink printer.old }
    ensures { Shows W.Sink result printer.old printer.new
        (page_front title.now (length refusals.now) rows.now (link_count rows.now)) }
{
    let text = front_text(alloc, title, refusals, rows)?;
    print_text(printer, text.as_str())
}

fn front_text(
    alloc: Global,
    title: &str,
    refusals: &[Refusal],
    rows: &[Row],
) -> Result<String, AllocError>
    ensures { IfOk result (λ text. string_bytes text
        ≡ page_front title.now (length refusals.now) rows.now (link_count rows.now)) }
{
    let links = link_count(alloc, rows)?;
    let mut text = String::new(alloc);
    push_front(&mut text, title, refusals, rows, links)?;
    Ok(text)
}

pub(crate) fn print_text<W: Sink>(printer: &mut Printer<'_, W>, text: &str) -> Result<(), PageFault>
    requires { IsWorking W.Sink printer.old }
    ensures { Shows W.Sink result printer.old printer.new text.now }
{
    match printer.print(&[Word(text)]) {
        Ok(()) => Ok(()),
        Err(_) => Err(PageFault::WriteFault),
    }
}

/// Prints the rows of the logs that can't be judged, and those of the links. So many of the first lead to conversations.
fn print_list<W: Sink>(
    alloc: Global,
    printer: &mut Printer<'_, W>,
    refusals: &[Refusal],
    links: &[LinkLogs],
    shown: usize,
) -> Result<(), PageFault>
    requires { IsWorking W.Sink printer.old }
    ensures { Shows W.Sink result printer.old printer.new (page_list refusals.now links.now shown) }
{
    print_refusals(alloc, printer, refusals)?;
    print_links(alloc, printer, links, shown)?;
    print_table_end(printer)
}

#[tactic(auto, unfolding(crate::specs::pages::Pages::table_end))]
fn print_table_end<W: Sink>(printer: &mut Printer<'_, W>) -> Result<(), PageFault>
    requires { IsWorking W.Sink printer.old }
    ensures { Shows W.Sink result printer.old printer.new table_end }
{
    print_text(printer, TABLE_END)
}

#[tactic(auto, unfolding(crate::specs::pages::Pages::page_end))]
fn print_page_end<W: Sink>(printer: &mut Printer<'_, W>) -> Result<(), PageFault>
    requires { IsWorking W.Sink printer.old }
    ensures { Shows W.Sink result printer.old printer.new page_end }
{
    print_text(printer, PAGE_END)
}

/// Prints the rows of the logs that can't be judged.
fn print_refusals<W: Sink>(
    alloc: Global,
    printer: &mut Printer<'_, W>,
    refusals: &[Refusal],
) -> Result<(), PageFault>
    requires { IsWorking W.Sink printer.old }
    ensures { Shows W.Sink result printer.old printer.new (refusal_rows refusals.now) }
{
    let mut text = String::new(alloc);
    for refusal in refusals {
        set_refusal(&mut text, refusal)?;
        print_text(printer, text.as_str())?;
    }
    Ok(())
}

/// Makes a text the row of a log that can't be judged.
fn set_refusal(text: &mut String, refusal: &Refusal) -> Result<(), AllocError>
    ensures { OnOk result (string_bytes text.new ≡ refusal_row refusal.now) }
{
    text.clear();
    push_refusal_row(text, refusal)
}

/// Prints the rows of the links. So many of the first lead to conversations.
fn print_links<W: Sink>(
    alloc: Global,
    printer: &mut Printer<'_, W>,
    links: &[LinkLogs],
    shown: usize,
) -> Result<(), PageFault>
    requires { IsWorking W.Sink printer.old }
    ensures { Shows W.Sink result printer.old printer.new (link_rows links.now shown) }
{
    let mut text = String::new(alloc);
    for (place, link) in links.iter().enumerate() {
        set_row(&mut text, link, place as u64 + 1, place < shown)?;
        print_text(printer, text.as_str())?;
    }
    Ok(())
}

/// Makes a text the row of a link.
fn set_row(text: &mut String, link: &LinkLogs, number: u64, linked: bool) -> Result<(), AllocError>
    ensures { OnOk result (string_bytes text.new ≡ link_row link.now number linked) }
{
    text.clear();
    push_link_row(text, link, number, linked)
}
