//! The joining of operations.
ghost use Rattle.std.specs.Prelude.{◌≡◌, ◌+◌, ◌<◌, ◌^◌, [], ◌∷◌, ◌++◌, All};
ghost use Rattle.arrayvec.specs.ArrayVec.{array_vec_len};
ghost use Rattle.tox_defs.specs.chain.Chain.{max_toxics};
ghost use Rattle.tox_defs.specs.operations.Op.{millis_of};
ghost use Rattle.tox_compile.specs.Normal.{vanishes, joined, with_last, with_op};
ghost use Rattle.tox_compile.specs.NormalInside.{with_more};

use arrayvec::ArrayVec;
use tox_defs::{MAX_TOXICS, Op, State};

/// Appends an operation. A mute replaces all before it, and a no-op is dropped.
pub(crate) fn add(ops: &mut ArrayVec<Op, MAX_TOXICS>, op: &Op)
    requires room { array_vec_len ops.old < max_toxics }
    requires sums { All (λ last. millis_of last + millis_of op.now < 2 ^ 32) ops.old.items }
    ensures { ops.new.items ≡ with_op ops.old.items op.now }
{
    if matches!(op, Op::Mute { .. }) {
        ops.clear();
        append(ops, op);
    } else if !vanishes(op) {
        join_last(ops, op);
    }
}

/// Appends an operation, joined to the last one if a rule allows.
fn join_last(ops: &mut ArrayVec<Op, MAX_TOXICS>, op: &Op)
    requires room { array_vec_len ops.old < max_toxics }
    requires sums { All (λ last. millis_of last + millis_of op.now < 2 ^ 32) ops.old.items }
    ensures { ops.new.items ≡ with_last ops.old.items op.now }
{
    let Some(last) = &ops.pop() else {
        append(ops, op);
        return;
    };
    if let Some(one) = &joined(last, op) {
        append(ops, one);
    } else {
        append(ops, last);
        append(ops, op);
    }
}

/// Whether an operation is a no-op.
fn vanishes(op: &Op) -> bool
    ensures { result ≡ vanishes op.now }
{
    match op {
        Op::Delay { fixed, jitter, .. } => *fixed == 0 && *jitter == 0,
        Op::Slow { millis } => *millis == 0,
        _ => false,
    }
}

/// The operation that replaces two neighbours, if a rule joins them.
fn joined(first: &Op, second: &Op) -> Option<Op>
    requires { millis_of first.now + millis_of second.now < 2 ^ 32 }
    ensures { result ≡ joined first.now second.now }
{
    match (first, second) {
        (
            Op::Delay {
                until: 0,
                from: 0,
                ..
            },
            Op::Delay {
                fixed,
                jitter: 0,
                until: 0,
                from: 0,
                ..
            },
        ) => Some(with_more(first, *fixed)),
        (
            Op::Delay {
                fixed,
                jitter: 0,
                until: 0,
                from: 0,
                ..
            },
            Op::Delay {
                until: 0,
                from: 0,
                ..
            },
        ) => Some(with_more(second, *fixed)),
        (Op::Slow { .. }, Op::Slow { millis }) => Some(with_more(first, *millis)),
        (Op::Limit { bytes }, Op::Limit { bytes: other }) => Some(Op::Limit {
            bytes: *bytes.min(other),
        }),
        (Op::Cutoff { instant }, Op::Cutoff { instant: other }) => Some(Op::Cutoff {
            instant: *instant.min(other),
        }),
        (Op::Mute { ending }, op) => Some(Op::Mute {
            ending: op.map_ending(&State::default(), ending),
        }),
        _ => None,
    }
}

/// The operation with `more` milliseconds added, if it delays chunks or a close, and else unchanged.
fn with_more(op: &Op, more: u32) -> Op
    requires { millis_of op.now + more < 2 ^ 32 }
    ensures { result ≡ with_more op.now more }
{
    match op {
        Op::Delay {
            fixed,
            latency,
            jitter,
            lane,
            until,
            from,
        } => Op::Delay {
            fixed: fixed + more,
            latency: *latency,
            jitter: *jitter,
            lane: *lane,
            until: *until,
            from: *from,
        },
        Op::Slow { millis } => Op::Slow {
            millis: millis + more,
        },
        _ => *op,
    }
}

/// Appends an item.
fn append<T: Copy>(list: &mut ArrayVec<T, MAX_TOXICS>, item: &T)
    requires { array_vec_len list.old < max_toxics }
    ensures { list.new.items ≡ list.old.items ++ item.now ∷ [] }
{
    list.push(*item);
}
