//! How many links some logs are of.
ghost use Rattle.std.specs.Prelude.{◌≡◌, IfOk};
ghost use Rattle.tox_draw.specs.pages.Links.{link_count};

use crate::pages::row::Row;
use std::alloc::{AllocError, Global};
use std::collections::HashSet;

/// A link.
#[derive(Clone, Copy, PartialEq, Eq, Hash)]
struct LinkName<'a> {
    proxy: &'a str,
    number: u64,
}

/// How many links these logs are of.
pub(crate) fn link_count(alloc: Global, rows: &[Row]) -> Result<u64, AllocError>
    ensures { IfOk result (λ count. count ≡ link_count rows.now) }
{
    let mut links = HashSet::new(alloc);
    for row in rows {
        links.insert(LinkName {
            proxy: row.facts.proxy.as_str(),
            number: row.facts.link,
        })?;
    }
    Ok(links.len() as u64)
}
