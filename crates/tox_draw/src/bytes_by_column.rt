//! The bytes that passed a point of a link, by the columns of a picture.
ghost use Rattle.std.specs.Prelude.{◌≡◌, ℕ, List, [], length, IfOk};
ghost use Rattle.tox_draw.specs.declared.frame.Frame.{Frame as OneFrame};
ghost use Rattle.tox_draw.specs.Frames.{IsFrame};
ghost use Rattle.tox_draw.specs.Lines.{AreYsOf, IsCurve, IsStrand, PassesBytes};

use crate::curve::Curve;
use crate::frame::Frame;
use crate::strand::Strand;
use std::alloc::{AllocError, Global};
use tox_time::{HORIZON, MAX_BYTES, Micros};

/// How many columns there are.
const COLUMNS: usize = 751;

impl Strand {
    /// Nothing passed yet.
    pub(crate) fn new(alloc: Global) -> Result<Strand, AllocError>
        ensures { IfOk result (λ strand. (frame : OneFrame) → IsStrand frame [] strand) }
    {
        Ok(Strand {
            total: 0,
            last: Micros::ZERO,
            last_before_horizon: Micros::ZERO,
            counts: vec![in alloc; 0; COLUMNS]?,
        })
    }

    /// So many bytes passed at an instant.
    pub(crate) fn add(&mut self, frame: &Frame, len: u64, instant: &Micros)
        requires { IsFrame frame.now }
        ensures { PassesBytes frame.now len instant.now self.old self.new }
    {
        let column = frame.column_of(&Some(*instant));
        self.total = self.total.saturating_add(len).min(MAX_BYTES);
        self.last = *instant;
        if instant.get() < HORIZON {
            self.last_before_horizon = *instant;
        }
        self.counts[column] = self.counts[column].saturating_add(len);
    }

    /// What passed, with the line of it.
    pub(crate) fn curve(&self, alloc: Global, frame: &Frame) -> Result<Curve, AllocError>
        requires { IsFrame frame.now }
        ensures { IfOk result (λ curve. (table : List ℕ)
            → IsStrand frame.now table self.now → IsCurve frame.now table curve) }
    {
        Ok(Curve {
            total: self.total,
            last: self.last,
            ys: self.ys(alloc, frame)?,
        })
    }

    /// The line: the y of each column.
    fn ys(&self, alloc: Global, frame: &Frame) -> Result<Vec<u16>, AllocError>
        requires { IsFrame frame.now }
        ensures columns { IfOk result (λ ys. length ys.items ≡ 751) }
        ensures line { IfOk result (λ ys. (table : List ℕ)
            → IsStrand frame.now table self.now → AreYsOf frame.now table ys.items) }
    {
        let mut ys = vec![in alloc; 0; COLUMNS]?;
        let mut so_far = 0u64;
        for (column, count) in self.counts.iter().enumerate() {
            so_far = so_far.saturating_add(*count).min(MAX_BYTES);
            ys[column] = frame.y_of(so_far) as u16;
        }
        Ok(ys)
    }
}
