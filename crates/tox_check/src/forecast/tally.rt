//! How many links met a rule, and how often each of its toxics is applied.
ghost use Rattle.std.specs.Prelude.{◌≡◌, ◌<◌, ◌≤◌, ℕ, length, replicate, slice_index, IfOk};
ghost use Rattle.tox_check.specs.forecast.Tally.{CountsMore, CountsRule, HasRoom, counts_on, no_counts};

use crate::forecast::flags::LinkFlags;
use std::alloc::{AllocError, Global};
use tox_defs::MAX_TOXICS;
use tox_time::Stream;

/// What is counted of a rule.
#[derive(Clone, Copy)]
pub(crate) struct Tally {
    /// How many links met the rule.
    pub(crate) met: u32,
    /// How many of them meet the upstream toxic of each place.
    pub(crate) upstream: [u32; MAX_TOXICS],
    /// How many of them meet the downstream toxic of each place.
    pub(crate) downstream: [u32; MAX_TOXICS],
}

impl Tally {
    /// Nothing is counted.
    fn new() -> Tally
        ensures { result ≡ no_counts }
    {
        Tally {
            met: 0,
            upstream: [0; MAX_TOXICS],
            downstream: [0; MAX_TOXICS],
        }
    }

    /// How many links meet the toxic at a place of a stream.
    pub(crate) fn applied(&self, stream: Stream, place: usize) -> u32
        ensures { result ≡ slice_index (counts_on stream self.now) place }
    {
        let counts = match stream {
            Stream::Upstream => &self.upstream,
            Stream::Downstream => &self.downstream,
        };
        if place < MAX_TOXICS { counts[place] } else { 0 }
    }
}

/// Tallies of so many rules.
pub(crate) fn tallies_of(alloc: Global, rules: usize) -> Result<Vec<Tally>, AllocError>
    ensures { IfOk result (λ tallies. tallies.items ≡ replicate rules no_counts) }
{
    let mut tallies = Vec::with_capacity(alloc, rules)?;
    for _ in 0..rules {
        tallies.push(Tally::new())?;
    }
    Ok(tallies)
}

/// Counts a link that met a rule.
pub(crate) fn count_link(tallies: &mut [Tally], rule: Option<usize>, flags: &LinkFlags)
    requires { HasRoom tallies.old }
    ensures { CountsRule rule flags.now tallies.old tallies.new }
{
    let Some(rule) = rule else {
        return;
    };
    if rule >= tallies.len() {
        return;
    }
    let tally = &mut tallies[rule];
    tally.met += 1;
    count_flags(&mut tally.upstream, &flags.upstream);
    count_flags(&mut tally.downstream, &flags.downstream);
}

/// Adds one to each count where a flag stands.
fn count_flags(counts: &mut [u32], flags: &[bool])
    requires places { length flags.now ≤ length counts.old }
    requires room { (place : ℕ) → slice_index counts.old place < 1_000_000 }
    ensures { CountsMore flags.now counts.old counts.new }
{
    for (place, applied) in flags.iter().enumerate() {
        if *applied {
            counts[place] += 1;
        }
    }
}
