//! Operations: what one stage of a chain does, and what a plan is made of.
ghost use Rattle.std.specs.Prelude.{◌≡◌, [], ◌∷◌};
ghost use Rattle.tox_time.specs.streams.Table.{final_of};
ghost use Rattle.tox_words.specs.Draw.{Draws};
ghost use Rattle.tox_defs.specs.operations.Op.{is_mute, op_giving, op_of};

use crate::operations::state::State;
use crate::toxic::Toxic;
use crate::toxics::ordered::in_order;
use crate::toxics::{
    bandwidth, halt, latency, limit_data, reset_peer, slicer, slow_close, timeout,
};
use tox_time::{Ending, Micros};

/// What one stage does: a toxic at its place. A plan is a list of these.
#[derive(Clone, Copy, Debug, PartialEq, Eq)]
pub enum Op {
    /// Delays each chunk by `fixed` milliseconds and, if `jitter` isn't 0, by `latency` plus or minus `jitter`,
    /// drawn from `lane`. Without jitter `fixed` has the whole delay, and `latency` and `lane` are 0. Here, in
    /// `Pace` and in `Slicing` a chunk before `from` milliseconds, or at or past `until` (0: never), leaves whole, in
    /// order and uncounted.
    Delay {
        fixed: u32,
        latency: u32,
        jitter: u32,
        lane: usize,
        until: u32,
        from: u32,
    },
    /// Passes `rate` bytes per millisecond.
    Pace {
        rate: u32,
        until: u32,
        from: u32,
    },
    /// Closes `millis` milliseconds later.
    Slow {
        millis: u32,
    },
    /// Drops all data. The link ends with `ending`.
    Mute {
        ending: Ending,
    },
    /// Resets at this instant.
    Cutoff {
        instant: Micros,
    },
    /// Cuts into pieces of `average` bytes, varied by `variation`, drawn from `lane`, with `micros`
    /// microseconds before each.
    Slicing {
        average: u32,
        variation: u32,
        micros: u64,
        lane: usize,
        until: u32,
        from: u32,
    },
    /// Closes after this many bytes.
    Limit {
        bytes: u64,
    },
    /// Ends with `ending`, which is raised to the instant at which it begins: at `at`, or once `after` bytes (0: any number)
    /// have passed. Until then all passes.
    Halt {
        at: Option<Micros>,
        after: u64,
        ending: Ending,
    },
}

impl Default for Op {
    ghost use Rattle.std.specs.Prelude.{◌≡◌};
    ghost use Rattle.tox_defs.specs.declared.operations.op.Op.TheVariants.{Slow};

    ghost is_default = { λ op. op ≡ Slow 0 };

    /// An operation that changes nothing.
    fn default() -> Self {
        Op::Slow { millis: 0 }
    }
}

impl Op {
    /// The operation of a toxic at this place of its chain.
    pub fn of(toxic: &Toxic, place: usize) -> Op
        ensures { result ≡ op_of place toxic.now }
    {
        match *toxic {
            Toxic::Latency {
                latency,
                jitter,
                until,
                from,
            } => latency::op(latency, jitter, until, from, place),
            Toxic::Bandwidth { rate, until, from } => bandwidth::op(rate, until, from),
            Toxic::SlowClose { delay } => slow_close::op(delay),
            Toxic::Timeout {
                timeout,
                from,
                after,
            } => timeout::op(timeout, from, after),
            Toxic::ResetPeer { timeout, after } => reset_peer::op(timeout, after),
            Toxic::Slicer {
                average_size,
                size_variation,
                delay,
                until,
                from,
            } => slicer::op(average_size, size_variation, delay, until, from, place),
            Toxic::LimitData { bytes } => limit_data::op(bytes),
        }
    }

    /// The ending that the operation gives for this one.
    pub fn map_ending(&self, state: &State, ending: &Ending) -> Ending
        ensures { (draws : Draws)
            → op_giving self.now draws state.now (final_of ending.now) ≡ final_of result ∷ [] }
    {
        match self {
            Op::Delay { .. } => in_order(state.previous, ending),
            Op::Pace { .. } => in_order(state.previous, ending),
            Op::Slow { millis } => slow_close::map_ending(*millis, ending),
            Op::Mute { ending } => *ending,
            Op::Cutoff { instant } => reset_peer::map_ending(*instant, ending),
            Op::Slicing { .. } => in_order(state.previous, ending),
            Op::Limit { .. } => *ending,
            Op::Halt {
                at,
                ending: last,
                ..
            } => halt::map_ending(at, last, ending),
        }
    }

    /// Whether the operation drops all data.
    pub(crate) fn is_mute(&self) -> bool
        ensures { result ≡ is_mute self.now }
    {
        matches!(self, Op::Mute { .. })
    }
}
