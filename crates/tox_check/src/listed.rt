//! The first of many runs, and how many more there are.
ghost use Rattle.std.specs.Prelude.{◌≡◌, ◌+◌, ◌<◌, ◌≤◌, ◌^◌, ◌↔◌, [], ◌∷◌, ◌++◌, IsTrue, List, length};
ghost use Rattle.tox_check.specs.declared.run.Run.{Run as SomeRun};
ghost use Rattle.tox_check.specs.Listed.{IsListed};

use crate::run::Run;
use arrayvec::ArrayVec;

/// How many runs are shown.
pub(crate) const SHOWN: usize = 8;

/// The first eight of some runs, and how many more there are.
#[derive(Drop)]
pub(crate) struct Listed {
    pub(crate) shown: ArrayVec<Run, SHOWN>,
    pub(crate) more: usize,
}

impl Listed {
    /// No runs.
    pub(crate) fn new() -> Listed
        ensures listed { IsListed [] result }
        ensures none { result.more ≡ 0 }
    {
        Listed {
            shown: ArrayVec::new(),
            more: 0,
        }
    }

    /// Appends a run.
    pub(crate) fn push(&mut self, run: Run)
        requires { self.old.more + 1 < 2 ^ 64 }
        ensures listed { (runs : List SomeRun) → IsListed runs self.old
            → IsListed (runs ++ run ∷ []) self.new }
        ensures few { self.new.more ≤ self.old.more + 1 }
    {
        if self.shown.len() < SHOWN {
            self.shown.push(run);
        } else {
            self.more += 1;
        }
    }

    /// Counts further runs without showing them.
    pub(crate) fn skip(&mut self, count: usize)
        requires { self.old.more + count < 2 ^ 64 }
        ensures shown { self.new.shown ≡ self.old.shown }
        ensures more { self.new.more ≡ self.old.more + count }
    {
        self.more += count;
    }

    /// Whether further runs are only counted.
    pub(crate) fn is_full(&self) -> bool
        ensures { IsTrue result ↔ (length self.now.shown.items ≡ 8) }
    {
        self.shown.len() == SHOWN
    }

    /// Whether there are no runs.
    pub(crate) fn is_empty(&self) -> bool
        ensures { IsTrue result ↔ (self.now.shown.items ≡ []) }
    {
        self.shown.is_empty()
    }
}
