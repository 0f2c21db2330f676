//! The judged logs of a link.
ghost use Rattle.std.specs.Prelude.{◌≡◌};
ghost use Rattle.tox_draw.specs.pages.LinkLogs.{are_opposite, first_row, joined, link_latest, link_words, makes_link, marks_link, worse_facts, worst_facts};

use crate::pages::end_words::{end_words, ended_by};
use crate::pages::kind::{Kind, has};
use crate::pages::row::{Row, StreamFacts};
use crate::pages::totals::late_with;
use tox_time::Stream;

/// The judged logs of a link: of one stream, or of both.
#[derive(Drop)]
pub(crate) enum LinkLogs {
    One(Row),
    /// The client's stream, and the server's.
    Both(Row, Row),
}

impl LinkLogs {
    /// The log that tells the link.
    pub(crate) fn first(&self) -> &Row
        ensures { result.now ≡ first_row self.now }
    {
        match self {
            LinkLogs::One(row) => row,
            LinkLogs::Both(upstream, _) => upstream,
        }
    }

    /// Whether a log isn't faithful.
    pub(crate) fn is_marked(&self) -> bool
        ensures { result ≡ marks_link self.now }
    {
        match self {
            LinkLogs::One(row) => has(Kind::Unfaithful, row),
            LinkLogs::Both(upstream, downstream) => {
                has(Kind::Unfaithful, upstream) || has(Kind::Unfaithful, downstream)
            }
        }
    }

    /// Who ended the link.
    pub(crate) fn ended_by(&self) -> &'static str
        ensures { result.now ≡ link_words self.now }
    {
        match self {
            LinkLogs::One(row) => end_words(&row.facts.end, row.facts.stream, false),
            LinkLogs::Both(upstream, downstream) => {
                ended_by(&upstream.facts.end, &downstream.facts.end)
            }
        }
    }

    /// The stream with the worse verdict.
    pub(crate) fn worst(&self) -> &StreamFacts
        ensures { result.now ≡ worst_facts self.now }
    {
        match self {
            LinkLogs::One(row) => &row.facts,
            LinkLogs::Both(upstream, downstream) => worse(upstream, downstream),
        }
    }

    /// The greatest lateness of its streams.
    pub(crate) fn latest(&self) -> Option<u64>
        ensures { result ≡ link_latest self.now }
    {
        match self {
            LinkLogs::One(row) => late_with(None, &row.facts),
            LinkLogs::Both(upstream, downstream) => {
                late_with(late_with(None, &upstream.facts), &downstream.facts)
            }
        }
    }
}

/// The facts of the log with the worse verdict: one that isn't faithful, or else one that is unfinished.
fn worse<'a>(upstream: &'a Row, downstream: &'a Row) -> &'a StreamFacts
    ensures { result.now ≡ worse_facts upstream.now downstream.now }
{
    if has(Kind::Unfaithful, upstream) {
        return &upstream.facts;
    }
    if has(Kind::Unfaithful, downstream) {
        return &downstream.facts;
    }
    if has(Kind::Unfinished, upstream) {
        return &upstream.facts;
    }
    &downstream.facts
}

/// Whether two logs are of one link, and of different streams.
pub(crate) fn makes_link(first: &Row, second: &Row) -> bool
    ensures { result ≡ makes_link first.now second.now }
{
    first.facts.link == second.facts.link
        && are_opposite(first.facts.stream, second.facts.stream)
        && first.facts.proxy.as_str() == second.facts.proxy.as_str()
}

fn are_opposite(first: Stream, second: Stream) -> bool
    ensures { result ≡ are_opposite first second }
{
    match first {
        Stream::Upstream => matches!(second, Stream::Downstream),
        Stream::Downstream => matches!(second, Stream::Upstream),
    }
}

/// The link of two logs of different streams.
pub(crate) fn joined(first: Row, second: Row) -> LinkLogs
    ensures { result ≡ joined first second }
{
    match first.facts.stream {
        Stream::Upstream => LinkLogs::Both(first, second),
        Stream::Downstream => LinkLogs::Both(second, first),
    }
}
