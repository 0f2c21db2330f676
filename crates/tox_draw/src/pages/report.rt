//! The logs of a run, judged one by one.
ghost use Rattle.std.specs.Prelude.{◌≡◌, List, [], ◌∷◌, ◌++◌, None, Some, Err, count_by, string_bytes, IsErr, IfErr, OnOk, OnErr, ◌⊎◌};
ghost use Rattle.tox_log.specs.FaultText.{IsFaultIn};
ghost use Rattle.tox_draw.specs.declared.pages.row.Refusal.{Refusal as OneRefusal};
ghost use Rattle.tox_draw.specs.declared.pages.row.Row.{Row as OneRow};
ghost use Rattle.tox_draw.specs.pages.Kinds.{has};
ghost use Rattle.tox_draw.specs.pages.Reports.{KeepsFault, KeepsLog, KeepsLogs, KeepsOn, RefusesLog, TakesLog};

use crate::pages::judging::facts_of;
use crate::pages::kind::{Kind, count_of};
use crate::pages::log_store::LogStore;
use crate::pages::row::{Refusal, Row};
use std::alloc::{AllocError, Global};
use tox_log::{JudgedLog, ReplayFault, judge_log};

/// The logs of a run, judged, in the order given.
#[derive(Drop)]
pub struct Report {
    /// The logs that can't be judged.
    pub(crate) refusals: Vec<Refusal>,
    /// The others.
    pub(crate) rows: Vec<Row>,
}

impl Report {
    /// No log yet.
    pub fn new(alloc: Global) -> Report
        ensures { KeepsLogs result [] [] }
    {
        Report {
            refusals: Vec::new(alloc),
            rows: Vec::new(alloc),
        }
    }

    /// Judges the log of this name. Of one that can't be judged the fault is kept, and returned too. After
    /// [`OutOfMemory`](ReplayFault::OutOfMemory) the log isn't kept.
    pub fn judge<'a, S: LogStore>(
        &mut self,
        alloc: Global,
        store: &S,
        name: &'a str,
    ) -> Result<(), ReplayFault<'a>>
        ensures ok { OnOk result
            (TakesLog (S.known store.now name.now) name.now self.old self.new) }
        ensures fault { IfErr result (RefusesLog name.now self.old self.new) }
        ensures named { IfErr result (IsFaultIn name.entry) }
        ensures missing { S.known store.now name.now ≡ Some None
            → (result ≡ Err (ReplayFault.Unreadable name.entry))
            ⊎ (result ≡ Err ReplayFault.OutOfMemory) }
    {
        let Some(mut reader) = store.open(name) else {
            return self.keep_fault(alloc, name, ReplayFault::Unreadable(name));
        };
        match judge_log(alloc, &mut reader) {
            Ok(log) => self.keep_log(alloc, name, &log),
            Err(fault) => self.keep_fault(alloc, name, ReplayFault::of(name, &fault)),
        }
    }

    /// How many logs are unfaithful.
    pub fn unfaithful(&self) -> u64
        ensures { (refusals : List OneRefusal) (rows : List OneRow)
            → KeepsLogs self.now refusals rows → result ≡ count_by (has Kind.Unfaithful) rows }
    {
        count_of(&self.rows, Kind::Unfaithful)
    }

    /// Keeps a log that was judged.
    fn keep_log<'a>(
        &mut self,
        alloc: Global,
        name: &'a str,
        log: &JudgedLog,
    ) -> Result<(), ReplayFault<'a>>
        ensures ok { OnOk result (KeepsLog name.now log.now self.old self.new) }
        ensures memory { IfErr result (λ fault. fault ≡ ReplayFault.OutOfMemory) }
        ensures kept { OnErr result (KeepsOn self.old self.new) }
    {
        match self.add_log(alloc, name, log) {
            Ok(()) => Ok(()),
            Err(_) => Err(ReplayFault::OutOfMemory),
        }
    }

    fn add_log(&mut self, alloc: Global, name: &str, log: &JudgedLog) -> Result<(), AllocError>
        ensures ok { OnOk result (KeepsLog name.now log.now self.old self.new) }
        ensures kept { OnErr result (KeepsOn self.old self.new) }
    {
        let facts = facts_of(alloc, log)?;
        let name = String::from_str(alloc, name)?;
        self.rows.push(Row { name, facts })?;
        Ok(())
    }

    /// Keeps a log that can't be judged, and returns its fault.
    fn keep_fault<'a>(
        &mut self,
        alloc: Global,
        name: &'a str,
        fault: ReplayFault<'a>,
    ) -> Result<(), ReplayFault<'a>>
        ensures refuses { IsErr result }
        ensures fault { (result ≡ Err fault.entry) ⊎ (result ≡ Err ReplayFault.OutOfMemory) }
        ensures left { IfErr result (RefusesLog name.now self.old self.new) }
    {
        if matches!(fault, ReplayFault::OutOfMemory) {
            return Err(ReplayFault::OutOfMemory);
        }
        match self.add_fault(alloc, name, &fault) {
            Ok(()) => Err(fault),
            Err(_) => Err(ReplayFault::OutOfMemory),
        }
    }

    fn add_fault(
        &mut self,
        alloc: Global,
        name: &str,
        fault: &ReplayFault<'_>,
    ) -> Result<(), AllocError>
        ensures ok { OnOk result (KeepsFault name.now fault.now self.old self.new) }
        ensures kept { OnErr result (KeepsOn self.old self.new) }
    {
        let name = String::from_str(alloc, name)?;
        let fault = format!(in alloc; "{fault}")?;
        self.refusals.push(Refusal { name, fault })?;
        Ok(())
    }
}
