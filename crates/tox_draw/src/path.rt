//! Paths of lines, in steps.
ghost use Rattle.std.specs.Prelude.{◌≡◌, ◌≤◌, ◌<◌, ◌+◌, ◌++◌, codes, decimal, length, take, OnOk};
ghost use Rattle.tox_draw.specs.Adding.{AddsText};
ghost use Rattle.tox_draw.specs.Paths.{across, after_step, area, step, steps_path};

use std::alloc::AllocError;

/// The x of the plot's left side, at which column 0 is.
pub(crate) const LEFT: u64 = 64;

/// Where a path is.
#[derive(Clone, Copy)]
struct Pen {
    x: u64,
    y: u64,
}

impl Pen {
    /// Goes across to an x.
    fn across(&mut self, text: &mut String, x: u64) -> Result<(), AllocError>
        ensures adds { OnOk result (AddsText text.old text.new (across self.old.x x)) }
        ensures moved { OnOk result (self.new ≡ record self.old { x = x }) }
    {
        if self.x != x {
            write!(text, "H{x}")?;
            self.x = x;
        }
        Ok(())
    }

    /// Goes to the y of a column at an x.
    fn step(&mut self, text: &mut String, x: u64, y: u64) -> Result<(), AllocError>
        ensures adds { OnOk result (AddsText text.old text.new (step self.old x y)) }
        ensures moved { OnOk result (self.new ≡ after_step self.old x y) }
    {
        if self.y != y {
            self.across(text, x)?;
            write!(text, "V{y}")?;
            self.y = y;
        }
        Ok(())
    }
}

#[tactic(auto, unfolding(crate::specs::Paths::steps_path))]
/// Adds the steps path of a line up to a column, from the base on.
pub(crate) fn push_steps(
    text: &mut String,
    ys: &[u16],
    end: usize,
    base: u64,
) -> Result<(), AllocError>
    requires { end < length ys.now }
    ensures { OnOk result (AddsText text.old text.new (steps_path ys.now end base)) }
{
    write!(text, "M64 {base}")?;
    let mut pen = Pen { x: LEFT, y: base };
    for (column, y) in ys[..=end].iter().enumerate() {
        pen.step(text, LEFT + column as u64, u64::from(*y))?;
    }
    pen.across(text, LEFT + end as u64)
}

#[tactic(auto, unfolding(crate::specs::Paths::area))]
/// Adds the area of two lines up to a column.
pub(crate) fn push_area(
    text: &mut String,
    first: &[u16],
    second: &[u16],
    end: usize,
    base: u64,
) -> Result<(), AllocError>
    requires first { end < length first.now }
    requires second { end < length second.now }
    ensures { OnOk result (AddsText text.old text.new (area first.now second.now end base)) }
{
    push_steps(text, first, end, base)?;
    write!(text, "V{base}Z")?;
    push_steps(text, second, end, base)?;
    write!(text, "V{base}Z")
}
