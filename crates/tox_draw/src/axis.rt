//! The axes, which end at a round value.
ghost use Rattle.std.specs.Prelude.{◌≡◌, ◌≤◌, ◌<◌, ◌+◌, max};
ghost use Rattle.tox_draw.specs.Axes.{IsAxis, axis_of, first_from, part_of, step_of};

/// How many steps an axis has at most.
const MAX_COUNT: u64 = 8;

/// The greatest step.
const MAX_STEP: u64 = 500_000_000_000_000;

/// The steps: 1, 2 and 5 times each power of ten.
const STEPS: [u64; 45] = [
    1,
    2,
    5,
    10,
    20,
    50,
    100,
    200,
    500,
    1_000,
    2_000,
    5_000,
    10_000,
    20_000,
    50_000,
    100_000,
    200_000,
    500_000,
    1_000_000,
    2_000_000,
    5_000_000,
    10_000_000,
    20_000_000,
    50_000_000,
    100_000_000,
    200_000_000,
    500_000_000,
    1_000_000_000,
    2_000_000_000,
    5_000_000_000,
    10_000_000_000,
    20_000_000_000,
    50_000_000_000,
    100_000_000_000,
    200_000_000_000,
    500_000_000_000,
    1_000_000_000_000,
    2_000_000_000_000,
    5_000_000_000_000,
    10_000_000_000_000,
    20_000_000_000_000,
    50_000_000_000_000,
    100_000_000_000_000,
    200_000_000_000_000,
    500_000_000_000_000,
];

/// An axis from 0 on: `count` steps, up to `end`.
#[derive(Clone, Copy)]
pub(crate) struct Axis {
    pub(crate) step: u64,
    pub(crate) count: u64,
    pub(crate) end: u64,
}

impl Axis {
    /// The axis of a greatest value of at most 10^15.
    pub(crate) fn of(greatest: u64) -> Axis
        requires { greatest ≤ 1000000000000000 }
        ensures value { result ≡ axis_of greatest }
        ensures axis { IsAxis result }
        ensures reaches { max greatest 1 ≤ result.end }
    {
        let most = greatest.max(1);
        let step = step_of(most);
        let count = most.div_ceil(step);
        let end = count * step;
        Axis { step, count, end }
    }
}

/// A value's part of a whole that is so long.
pub(crate) fn part_of(value: u64, whole: u64, long: u64) -> u64
    requires some { 0 < whole }
    requires few { value ≤ 1500000000000000 }
    requires short { long ≤ 1000 }
    ensures value { result ≡ part_of value whole long }
    ensures within { value ≤ whole → result ≤ long }
{
    value * long / whole
}

/// The smallest step that is at least an eighth of a greatest value of at most 10^15.
fn step_of(greatest: u64) -> u64
    ensures value { result ≡ step_of greatest }
    ensures some { 0 < result }
    ensures most { result ≤ 500000000000000 }
{
    first_from(&STEPS, greatest.div_ceil(MAX_COUNT))
}

/// The first step that isn't below a value, or the greatest step.
fn first_from(steps: &[u64], least: u64) -> u64
    ensures { result ≡ first_from steps.now least }
{
    for step in steps {
        if least <= *step {
            return *step;
        }
    }
    MAX_STEP
}
