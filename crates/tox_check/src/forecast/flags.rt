//! Which toxics a link meets, as one flag for each place of a chain.
ghost use Rattle.std.specs.Prelude.{◌≡◌, ◌≤◌, length, map, string_bytes};
ghost use Rattle.tox_defs.specs.chain.Chain.{IsChain};
ghost use Rattle.tox_time.specs.declared.streams.stream.Stream.TheVariants.{Upstream as Up, Downstream as Down};
ghost use Rattle.tox_words.specs.Draw.{draws_of};
ghost use Rattle.tox_check.specs.forecast.Applied.{applied_flags, chain_flags, meets_name};

use arrayvec::ArrayVec;
use tox_defs::{Chain, Entry, MAX_TOXICS};
use tox_script::Chains;
use tox_time::Stream;
use tox_words::{Drawing, FirstWords};

/// Whether each toxic of a chain is applied.
pub(crate) type Flags = ArrayVec<bool, MAX_TOXICS>;

/// Whether each toxic of a link is applied.
#[derive(Drop)]
pub(crate) struct LinkFlags {
    pub(crate) upstream: Flags,
    pub(crate) downstream: Flags,
}

impl LinkFlags {
    ghost use Rattle.tox_check.specs.forecast.LinkFlags.{flags_on};

    /// The flags of a stream.
    pub(crate) fn on(&self, stream: Stream) -> &[bool]
        ensures { result.now ≡ flags_on stream self.now }
    {
        match stream {
            Stream::Upstream => &self.upstream,
            Stream::Downstream => &self.downstream,
        }
    }
}

/// Whether each toxic of a connection is applied, under the words of a seed.
pub(crate) fn link_flags(chains: &Chains, seed: u64, conn: u64) -> LinkFlags
    requires first { 1 ≤ conn }
    requires last { conn ≤ 1_000_000 }
    ensures upstream { result.upstream.items
        ≡ chain_flags chains.now.upstream.chain seed conn Up }
    ensures downstream { result.downstream.items
        ≡ chain_flags chains.now.downstream.chain seed conn Down }
{
    LinkFlags {
        upstream: chain_flags(
            chains.on(Stream::Upstream).chain(),
            seed,
            conn,
            Stream::Upstream,
        ),
        downstream: chain_flags(
            chains.on(Stream::Downstream).chain(),
            seed,
            conn,
            Stream::Downstream,
        ),
    }
}

/// Whether each toxic of a chain is applied, under the words of a connection's stream. Only a lane's first word tells it.
fn chain_flags(chain: &Chain, seed: u64, conn: u64, stream: Stream) -> Flags
    requires first { 1 ≤ conn }
    requires last { conn ≤ 1_000_000 }
    ensures { result.items ≡ chain_flags chain.now seed conn stream }
{
    if chain.is_empty() {
        return ArrayVec::new();
    }
    let words = FirstWords::from_seed(seed, conn, stream);
    let drawing = Drawing::first(chain.lanes(), &words);
    applied_flags(chain.entries(), &drawing)
}

/// Whether each of some toxics is applied.
fn applied_flags(entries: &[Entry], drawing: &Drawing<'_>) -> Flags
    requires { length entries.now ≤ 32 }
    ensures { result.items ≡ applied_flags (draws_of drawing.now) entries.now }
{
    let mut flags = ArrayVec::new();
    for (place, entry) in entries.iter().enumerate() {
        flags.push(entry.is_applied(place, drawing));
    }
    flags
}

/// Whether an applied toxic has a name.
pub(crate) fn meets_name(name: &str, names: &[String], flags: &[bool]) -> bool
    ensures { result ≡ meets_name name.now (map string_bytes names.now) flags.now }
{
    let Some((first, names)) = names.split_first() else {
        return false;
    };
    let Some((applied, flags)) = flags.split_first() else {
        return false;
    };
    (*applied && first.as_str() == name) || meets_name(name, names, flags)
}
