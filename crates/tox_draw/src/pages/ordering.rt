//! The links of a page, in order.
ghost use Rattle.std.specs.Prelude.{◌≡◌, List, IfOk, OnOk};
ghost use Rattle.tox_draw.specs.declared.pages.link_logs.LinkLogs.{LinkLogs as SomeLink};
ghost use Rattle.tox_draw.specs.pages.LinkLogs.{ordered_links, page_links};
ghost use Rattle.tox_draw.specs.pages.Ordering.{AddsLink, SortsLinks, TakesRow};

use crate::pages::link_logs::{LinkLogs, joined, makes_link};
use crate::pages::row::Row;
use std::alloc::{AllocError, Global};

/// Links on their way to a page.
#[derive(Drop)]
struct SortedLinks {
    /// The links with a log that isn't faithful.
    marked: Vec<LinkLogs>,
    /// The others.
    unmarked: Vec<LinkLogs>,
}

/// The links of some logs, in the order of the page.
pub(crate) fn page_links(alloc: Global, rows: Vec<Row>) -> Result<Vec<LinkLogs>, AllocError>
    ensures { IfOk result (λ links. links.items ≡ page_links rows.items) }
{
    let mut sorted = SortedLinks {
        marked: Vec::new(alloc),
        unmarked: Vec::new(alloc),
    };
    let mut waiting = None;
    for row in rows {
        waiting = sorted.take(waiting, row)?;
    }
    if let Some(row) = waiting {
        sorted.add(LinkLogs::One(row))?;
    }
    sorted.into_links()
}

impl SortedLinks {
    /// Takes the next log, behind one that waits for the other of its link. Returns the log that waits then.
    fn take(&mut self, waiting: Option<Row>, row: Row) -> Result<Option<Row>, AllocError>
        ensures { IfOk result (TakesRow self.old waiting row self.new) }
    {
        let Some(first) = waiting else {
            return Ok(Some(row));
        };
        if makes_link(&first, &row) {
            self.add(joined(first, row))?;
            return Ok(None);
        }
        self.add(LinkLogs::One(first))?;
        Ok(Some(row))
    }

    fn add(&mut self, link: LinkLogs) -> Result<(), AllocError>
        ensures { OnOk result (AddsLink self.old link self.new) }
    {
        if link.is_marked() {
            self.marked.push(link)?;
        } else {
            self.unmarked.push(link)?;
        }
        Ok(())
    }

    /// The links that are marked, and then the others.
    fn into_links(self) -> Result<Vec<LinkLogs>, AllocError>
        ensures { IfOk result (λ ordered. (links : List SomeLink) → SortsLinks self links
            → ordered.items ≡ ordered_links links) }
    {
        let mut links = self.marked;
        let mut unmarked = self.unmarked;
        links.append(&mut unmarked)?;
        Ok(links)
    }
}
