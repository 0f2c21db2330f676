//! The toxics of a command line.
ghost use Rattle.std.specs.Prelude.{◌≡◌, ◌≢◌, IfOk, IfErr, Ok, Err};
ghost use Rattle.tox_inline.specs.Toxics.{count_on, numbered_toxics, typed_behind};
ghost use Rattle.tox_inline.specs.Setup.{IsInlineFault};

use crate::fault::InlineFault;
use std::alloc::Global;
use tox_defs::{Entry, MAX_TOXICS, read_short};
use tox_runs::ToxicsFault;
use tox_time::Stream;

/// A toxic as it was typed: its stream, and its short form.
#[derive(Clone, Copy, Debug)]
pub struct InlineToxic<'a> {
    pub stream: Stream,
    pub short: &'a str,
}

/// A toxic that was read: its stream, its number there from 1, and the toxic with its toxicity.
#[derive(Clone, Copy)]
pub(crate) struct NumberedToxic {
    pub(crate) stream: Stream,
    pub(crate) number: usize,
    pub(crate) entry: Entry,
}

/// Reads the toxics in the order typed.
pub(crate) fn read_toxics(
    alloc: Global,
    toxics: &[InlineToxic<'_>],
) -> Result<Vec<NumberedToxic>, InlineFault>
    ensures ok { IfOk result (λ read. numbered_toxics toxics.now ≡ Ok read.items) }
    ensures fault { IfErr result (IsInlineFault (numbered_toxics toxics.now)) }
{
    let mut read = Vec::new(alloc);
    for toxic in toxics {
        let next = read_behind(&read, toxic)?;
        read.push(next)?;
    }
    Ok(read)
}

/// Reads the toxic that stands behind these.
fn read_behind(
    earlier: &[NumberedToxic],
    toxic: &InlineToxic<'_>,
) -> Result<NumberedToxic, ToxicsFault>
    ensures { result ≡ typed_behind earlier.now toxic.now }
{
    let place = earlier.len() + 1;
    let (read, toxicity) = match read_short(toxic.short) {
        Ok(read) => read,
        Err(fault) => return Err(ToxicsFault::Short(fault, place)),
    };
    let before = count_on(earlier, toxic.stream);
    if before >= MAX_TOXICS {
        return Err(ToxicsFault::TooMany(place));
    }
    Ok(NumberedToxic {
        stream: toxic.stream,
        number: before + 1,
        entry: Entry {
            toxic: read,
            toxicity,
        },
    })
}

/// How many of some toxics are on a stream.
fn count_on(toxics: &[NumberedToxic], stream: Stream) -> usize
    ensures { result ≡ count_on stream toxics.now }
{
    toxics.iter().filter(|toxic| toxic.stream == stream).count()
}
