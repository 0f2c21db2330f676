//! Slices: ranges of bytes that leave at one instant.
ghost use Rattle.std.specs.Prelude.{◌≡◌, [], ◌∷◌, ◌++◌, List, OnOk, OnErr};

use crate::micros::Micros;
use crate::streams::span::Span;
use std::alloc::{AllocError, Global};
use std::marker::Model;

/// A range of bytes, and the instant at which they leave the link.
#[derive(Clone, Copy, Debug, Default, PartialEq, Eq, Hash)]
pub struct Slice {
    pub span: Span,
    pub instant: Micros,
}

/// Slices in the order in which they leave. Contracts see it as a list.
#[derive(Debug, Drop)]
pub struct SliceList {
    slices: Vec<Slice>,
}

impl Model for SliceList {
    ghost use Rattle.std.specs.Prelude.{List};
    ghost use Rattle.tox_time.specs.declared.streams.slice.Slice.{Slice as OneSlice};

    ghost Value = { List OneSlice };

    ghost view = { λ list. list.slices.items };
}

impl SliceList {
    /// An empty list. Takes no memory.
    pub fn new(alloc: Global) -> SliceList
        ensures { result ≡ [] }
    {
        SliceList {
            slices: Vec::new(alloc),
        }
    }

    /// Appends a slice.
    pub fn push(&mut self, slice: Slice) -> Result<(), AllocError>
        ensures ok { OnOk result (self.new ≡ self.old ++ slice ∷ []) }
        ensures err { OnErr result (self.new ≡ self.old) }
    {
        self.slices.push(slice)?;
        Ok(())
    }

    /// The slices, in the order in which they leave.
    pub fn as_slice(&self) -> &[Slice]
        ensures { result.now ≡ self.now }
    {
        &self.slices
    }

    /// The list as a vector. Takes no memory.
    pub fn into_vec(self) -> Vec<Slice>
        ensures { result.items ≡ self }
    {
        self.slices
    }
}

impl From<Vec<Slice>> for SliceList {
    ghost from_gives = { λ slices list. list ≡ slices.items };

    fn from(slices: Vec<Slice>) -> SliceList {
        SliceList { slices }
    }
}
