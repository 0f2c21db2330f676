//! The compiled runner beside the stages one after another, on chains, words and arrivals drawn at random.
use crate::plan::demands::demand;
use crate::plan::outcomes::compare_outcomes;
use crate::plan::settings::Setting;
use crate::plan::staged::{outcome_of, staged_items};
use rand_pcg::Lcg64Xsh32;
use std::process::Abort;
use tests_support::{below, drawn_words};
use tox_defs::{Chain, Toxic};
use tox_time::{Arrivals, Micros};
use tox_words::Lanes;

fn toxic(generator: &mut Lcg64Xsh32) -> Toxic {
    match below(generator, 7) {
        0 => Toxic::Latency {
            latency: below(generator, 4),
            jitter: below(generator, 3),
            until: below(generator, 6),
            from: start(generator),
        },
        1 => Toxic::Bandwidth {
            rate: 1 + below(generator, 3),
            until: below(generator, 6),
            from: start(generator),
        },
        2 => Toxic::SlowClose {
            delay: below(generator, 3),
        },
        3 => Toxic::Timeout {
            timeout: below(generator, 9),
            from: start(generator),
            after: bytes_before(generator),
        },
        4 => Toxic::ResetPeer {
            timeout: below(generator, 9),
            after: bytes_before(generator),
        },
        5 => slicer(generator),
        _ => Toxic::LimitData {
            bytes: u64::from(below(generator, 300)),
        },
    }
}

fn slicer(generator: &mut Lcg64Xsh32) -> Toxic {
    let average_size = 1 + below(generator, 40);
    Toxic::Slicer {
        average_size,
        size_variation: below(generator, average_size),
        delay: u64::from(below(generator, 900)),
        until: below(generator, 6),
        from: start(generator),
    }
}

/// The milliseconds at which a toxic begins: as often as not none.
fn start(generator: &mut Lcg64Xsh32) -> u32 {
    below(generator, 12).saturating_sub(6)
}

/// The bytes behind which a toxic begins: as often as not none.
fn bytes_before(generator: &mut Lcg64Xsh32) -> u64 {
    u64::from(below(generator, 600).saturating_sub(300))
}

/// A chain of 16 or 32 lanes and up to 5 toxics, of which a timeout that begins at once comes seldom.
fn chain(rt: &impl Abort, generator: &mut Lcg64Xsh32) -> Chain {
    let lanes = match below(generator, 2) {
        0 => Lanes::Sixteen,
        _ => Lanes::ThirtyTwo,
    };
    let mut chain = Chain::with_lanes(lanes);
    for _ in 0..below(generator, 6) {
        push_toxic(rt, generator, &mut chain);
    }
    chain
}

/// Adds a toxic to a chain, but of six timeouts that begin at once about one.
fn push_toxic(rt: &impl Abort, generator: &mut Lcg64Xsh32, chain: &mut Chain) {
    let toxic = toxic(generator);
    if drops_all(&toxic) && below(generator, 6) != 0 {
        return;
    }
    let toxicity = if below(generator, 4) == 0 { 500 } else { 1000 };
    demand(rt, toxic.check().is_ok());
    demand(rt, chain.push(toxic, toxicity).is_ok());
}

/// Whether a toxic is a timeout that begins at once.
fn drops_all(toxic: &Toxic) -> bool {
    match *toxic {
        Toxic::Timeout { from, after, .. } => from == 0 && after == 0,
        _ => false,
    }
}

fn arrivals(rt: &(impl Abort + AllocGlobal), generator: &mut Lcg64Xsh32) -> Arrivals {
    let mut arrivals = Arrivals::new(rt.alloc());
    let mut instant = Micros::ZERO;
    for _ in 0..below(generator, 6) {
        instant = instant.after(u64::from(below(generator, 4000)));
        let len = u64::from(1 + below(generator, 150));
        arrivals.push(len, instant).expect(rt, "a piece");
    }
    if below(generator, 2) == 0 {
        let end = instant.after(u64::from(below(generator, 4000)));
        arrivals.eof(end).expect(rt, "an end");
    }
    arrivals
}

fn setting(rt: &(impl Abort + AllocGlobal), seed: u64) -> Setting {
    let generator = &mut Lcg64Xsh32::new(seed, 1);
    Setting {
        chain: chain(rt, generator),
        words: drawn_words(rt.alloc(), generator).expect(rt, "memory"),
        arrivals: arrivals(rt, generator),
    }
}

/// Compares what stages and runner deliver in a setting that a seed draws.
fn compare(rt: &(impl Abort + AllocGlobal), seed: u64) {
    let setting = setting(rt, seed);
    let staged = outcome_of(rt, &staged_items(rt, &setting));
    compare_outcomes(rt, &staged, &setting.delivered(rt), seed);
}

#[test]
fn stages_and_runner_agree(rt: HostRuntime) {
    for seed in 0..4000 {
        compare(&rt, seed);
    }
}
