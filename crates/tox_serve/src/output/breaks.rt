//! Which broken links are reported. For each proxy and reason the first is reported at once, then at most one a second with the number of
//! the others.
use crate::link::break_reason::BreakReason;
use std::alloc::{AllocError, Global};
use std::time::{Clock, Duration, Instant};

/// How long after a report the next one comes, in milliseconds.
const REST: u64 = 1_000;

/// The links of one proxy that broke for one kind of reason.
#[derive(Clone, Copy)]
struct Broken {
    /// The first that isn't reported yet, and why it broke.
    first: Option<(u64, BreakReason)>,
    /// How many more aren't reported yet.
    more: u64,
    /// When one was reported last.
    reported: Option<Instant>,
}

/// A report of broken links of the proxy at a place.
#[derive(Clone, Copy)]
pub(crate) struct BrokenLinks {
    pub(crate) place: usize,
    /// The number of the first.
    pub(crate) number: u64,
    pub(crate) reason: BreakReason,
    pub(crate) more: u64,
}

/// The broken links that wait to be reported.
#[derive(Drop)]
pub(crate) struct Breaks {
    proxies: Vec<[Broken; BreakReason::KINDS]>,
}

impl Breaks {
    /// No link of so many proxies has broken. Their room is reserved, so that no later call takes memory.
    pub(crate) fn new(alloc: Global, proxies: usize) -> Result<Breaks, AllocError> {
        let none = Broken {
            first: None,
            more: 0,
            reported: None,
        };
        let mut breaks = Vec::with_capacity(alloc, proxies)?;
        for _ in 0..proxies {
            breaks.push([none; BreakReason::KINDS])?;
        }
        Ok(Breaks { proxies: breaks })
    }

    /// Notes that a numbered link of the proxy at a place has broken.
    pub(crate) fn note(&mut self, place: usize, number: u64, reason: BreakReason) {
        let Some(broken) = self.broken(place, reason) else {
            return;
        };
        match broken.first {
            None => broken.first = Some((number, reason)),
            Some(_) => broken.more = broken.more.saturating_add(1),
        }
    }

    fn broken(&mut self, place: usize, reason: BreakReason) -> Option<&mut Broken> {
        let kind = reason.kind()?;
        self.proxies.get_mut(place)?.get_mut(kind)
    }

    /// How long until the next report. None if no link waits for one.
    pub(crate) fn rest<R: Clock>(&self, rt: &R) -> Option<Duration> {
        let now = Instant::now(rt).ok();
        let mut least = None;
        for broken in self.proxies.iter().flatten() {
            if broken.first.is_some() {
                let rest = rest_of(broken, now);
                least = Some(least.unwrap_or(rest).min(rest));
            }
        }
        least
    }

    /// The next report whose time has come. Where no more links come (`are_last`), it needn't have. Its links count as reported.
    pub(crate) fn next<R: Clock>(&mut self, rt: &R, are_last: bool) -> Option<BrokenLinks> {
        let now = Instant::now(rt).ok();
        for (place, kinds) in self.proxies.iter_mut().enumerate() {
            for broken in kinds {
                if !are_last && !rest_of(broken, now).is_zero() {
                    continue;
                }
                if let Some((number, reason)) = broken.first.take() {
                    let more = broken.more;
                    broken.more = 0;
                    broken.reported = now;
                    return Some(BrokenLinks {
                        place,
                        number,
                        reason,
                        more,
                    });
                }
            }
        }
        None
    }
}

/// How long until the next report may come. Without a clock it may come at once.
fn rest_of(broken: &Broken, now: Option<Instant>) -> Duration {
    match (broken.reported, now) {
        (Some(reported), Some(now)) => {
            Duration::from_millis(REST).saturating_sub(now.duration_since(reported))
        }
        _ => Duration::ZERO,
    }
}
