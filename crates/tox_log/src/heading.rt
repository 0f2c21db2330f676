//! The header of a log, line by line.
ghost use Rattle.std.specs.Prelude.{◌≡◌, ◌≢◌, ◌++◌, ◌∷◌, [], ◌<◌, ◌≤◌, ◌^◌, ℕ, List, codes, decimal, IfSome, IfOk, IsSomeAnd, IsTrue, MatchOption, Some, ◌↔◌};
ghost use Rattle.tox_defs.specs.short.Printed.{printed_short};
ghost use Rattle.tox_time.specs.streams.StreamName.{stream_name};
ghost use Rattle.tox_words.specs.Draw.{lane_count};
ghost use Rattle.tox_log.specs.HeaderText.{title_line, link_line, seed_line, toxic_line};
ghost use Rattle.tox_defs.specs.chain.Chain.{IsEntry};
ghost use Rattle.tox_defs.specs.declared.chain.Entry.{Entry as OneEntry};
ghost use Rattle.tox_time.specs.declared.streams.stream.Stream.{Stream as OneStream};
ghost use Rattle.tox_words.specs.declared.lanes.Lanes.{Lanes as OneLanes};
ghost use Rattle.tox_log.specs.HeaderLines.{AreLinkWords, BeginsToxic, IsWritableName, PrintsLink, PrintsToxic};
ghost use Rattle.tox_log.specs.Numbers.{Lacks};

use crate::log_bytes::LogBytes;
use crate::numbers::{cut_at, cut_at_last, number_of};
use std::alloc::{AllocError, Global};
use std::str;
use tox_defs::{Entry, read_short};
use tox_text::{Printer, print_short};
use tox_time::Stream;
use tox_words::{Lanes, MAX_CONNECTIONS};

/// What the first three lines of a log say.
#[derive(Debug, Drop)]
pub struct Heading {
    /// The proxy's name, as it is printed.
    pub proxy: String,
    /// The link's number, from 1.
    pub number: u64,
    pub stream: Stream,
    pub lanes: Lanes,
    pub seed: u64,
    pub ghost numbered: { (1 ≤ number) × (number ≤ 1_000_000) },
}

/// The stream of a link, as the second line says it.
#[derive(Clone, Copy)]
pub(crate) struct LinkWords<'a> {
    pub(crate) proxy: &'a str,
    pub(crate) number: u64,
    pub(crate) stream: Stream,
}

/// Whether this is the first line.
pub(crate) fn is_title(line: &[u8]) -> bool
    ensures { IsTrue result ↔ (line.now ++ 10 ∷ [] ≡ title_line) }
{
    line == b"toxi log 1".as_slice()
}

/// What the second line says: `link <name> <number> <stream>`.
pub(crate) fn read_link(line: &[u8]) -> Option<LinkWords<'_>>
    ensures numbered { IfSome result (λ link. (1 ≤ link.number) × (link.number ≤ 1_000_000)) }
    ensures named { IfSome result (λ link. IsWritableName link.proxy.now) }
    ensures line { IfSome result
        (λ link. line.now ++ 10 ∷ [] ≡ link_line link.proxy.now link.number link.stream) }
    ensures back { (name : List ℕ) (number : ℕ) (stream : OneStream)
        → PrintsLink line.now name number stream
        → IsSomeAnd result (λ link. AreLinkWords link name number stream) }
{
    let rest = line.strip_prefix(b"link ")?;
    let (rest, stream) = cut_at_last(rest, b' ')?;
    let (name, number) = cut_at_last(rest, b' ')?;
    let proxy = name_of(name)?;
    let number = link_number(number)?;
    let stream = stream_of(stream)?;
    Some(LinkWords {
        proxy,
        number,
        stream,
    })
}

/// The number of a link that a text is.
fn link_number(text: &[u8]) -> Option<u64>
    ensures { MatchOption result
        ((number : ℕ) → 1 ≤ number → number ≤ 1_000_000 → text.now ≢ decimal number)
        (λ number. (1 ≤ number) × (number ≤ 1_000_000) × (text.now ≡ decimal number)) }
{
    let number = number_of(text, MAX_CONNECTIONS)?;
    if number == 0 {
        return None;
    }
    Some(number)
}

fn stream_of(name: &[u8]) -> Option<Stream>
    ensures { MatchOption result ((stream : OneStream) → name.now ≢ stream_name stream)
        (λ stream. name.now ≡ stream_name stream) }
{
    let Ok(name) = str::from_utf8(name) else {
        return None;
    };
    Stream::of_name(name)
}

/// The name that a text is: not empty, and without control characters.
fn name_of(text: &[u8]) -> Option<&str>
    ensures { MatchOption result (¬ IsWritableName text.now)
        (λ name. (name.now ≡ text.now) × IsWritableName text.now) }
{
    if text.is_empty() || text.iter().any(|byte| byte.is_ascii_control()) {
        return None;
    }
    let Ok(name) = str::from_utf8(text) else {
        return None;
    };
    Some(name)
}

/// What the third line says: `lanes <lanes> seed <seed>`.
pub(crate) fn read_seed(line: &[u8]) -> Option<(Lanes, u64)>
    ensures line { IfSome result (λ read. line.now ++ 10 ∷ [] ≡ seed_line read.0 read.1) }
    ensures back { (lanes : OneLanes) (seed : ℕ) → seed < 2 ^ 64
        → line.now ++ 10 ∷ [] ≡ seed_line lanes seed → result ≡ Some (lanes, seed) }
{
    let rest = line.strip_prefix(b"lanes ")?;
    let (count, rest) = cut_at(rest, b' ')?;
    let lanes = lanes_of(count)?;
    let seed = rest.strip_prefix(b"seed ")?;
    let seed = number_of(seed, u64::MAX)?;
    Some((lanes, seed))
}

fn lanes_of(count: &[u8]) -> Option<Lanes>
    ensures { MatchOption result ((lanes : OneLanes) → count.now ≢ decimal (lane_count lanes))
        (λ lanes. count.now ≡ decimal (lane_count lanes)) }
{
    let count = number_of(count, 32)?;
    if count == 16 {
        return Some(Lanes::Sixteen);
    }
    if count == 32 {
        return Some(Lanes::ThirtyTwo);
    }
    None
}

/// Whether a line is to be a toxic's.
pub(crate) fn is_toxic(line: &[u8]) -> bool
    ensures { IsTrue result ↔ BeginsToxic line.now }
{
    line.starts_with(b"toxic ")
}

/// The toxic of a line: `toxic <short form> <name>`, with the short form as it is printed.
pub(crate) fn read_toxic(alloc: Global, line: &[u8]) -> Result<Option<Entry>, AllocError>
    ensures entry { IfOk result (λ read. IfSome read (λ entry. IsEntry entry)) }
    ensures line { IfOk result (λ read. IfSome read (λ entry. (name : List ℕ)
        × IsWritableName name × (line.now ++ 10 ∷ [] ≡ toxic_line entry name))) }
    ensures back { (named : OneEntry × List ℕ) → PrintsToxic line.now named
        → IfOk result (λ read. read ≡ Some named.0) }
{
    let Some((short, name)) = toxic_words(line) else {
        return Ok(None);
    };
    if name_of(name).is_none() {
        return Ok(None);
    }
    let Some(entry) = entry_of(short) else {
        return Ok(None);
    };
    if is_printed(alloc, &entry, short)? {
        Ok(Some(entry))
    } else {
        Ok(None)
    }
}

/// The short form and the name of a toxic's line.
fn toxic_words(line: &[u8]) -> Option<(&[u8], &[u8])>
    ensures { MatchOption result
        ((short name : List ℕ) → line.now ≢ codes "toxic " ++ short ++ 32 ∷ name)
        (λ words. Lacks 32 words.0.now
        × (line.now ≡ codes "toxic " ++ words.0.now ++ 32 ∷ words.1.now)) }
{
    let rest = line.strip_prefix(b"toxic ")?;
    cut_at(rest, b' ')
}

/// The toxic of a short form.
fn entry_of(short: &[u8]) -> Option<Entry>
    ensures entry { IfSome result (λ entry. IsEntry entry) }
    ensures back { (entry : OneEntry) → IsEntry entry
        → short.now ≡ printed_short entry.toxic entry.toxicity → result ≡ Some entry }
{
    let Ok(short) = str::from_utf8(short) else {
        return None;
    };
    let Ok((toxic, toxicity)) = read_short(short) else {
        return None;
    };
    Some(Entry { toxic, toxicity })
}

/// Whether a toxic is printed so.
fn is_printed(alloc: Global, entry: &Entry, short: &[u8]) -> Result<bool, AllocError>
    ensures { IfOk result (λ same. IsTrue same
        ↔ (short.now ≡ printed_short entry.now.toxic entry.now.toxicity)) }
{
    let mut printed = LogBytes::new(alloc);
    let mut printer = Printer::new(&mut printed);
    if print_short(&mut printer, entry).is_err() {
        return Err(AllocError);
    }
    if printer.finish().is_err() {
        return Err(AllocError);
    }
    Ok(printed.bytes() == short)
}
