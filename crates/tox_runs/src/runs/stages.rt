//! A run of stages in real threads: arrivals in, the result of a chain out.
ghost use Rattle.std.specs.Prelude.{◌≡◌, ◌≢◌, ◌+◌, ◌≤◌, false, vec_capacity, OnOk, IfErr, Err};
ghost use Rattle.std.specs.Result.{ForOk};
ghost use Rattle.tox_time.specs.streams.Arrivals.{arrival_list};
ghost use Rattle.tox_time.specs.streams.Neighbours.{AreNeighbours};
ghost use Rattle.tox_time.specs.streams.Table.{slices_table};
ghost use Rattle.tox_text.specs.arrivals.ArrivalsText.{arrivals_of};
ghost use Rattle.tox_text.specs.arrivals.Checked.{IsChecked};
ghost use Rattle.tox_text.specs.ResultText.{result_text};
ghost use Rattle.tox_text.specs.Writing.{Writes};
ghost use Rattle.tox_runs.specs.runs.DryRun.{WritesEveryRest, WritesResult};
ghost use Rattle.tox_runs.specs.runs.Reading.{TakesAtMost};
ghost use Rattle.tox_runs.specs.runs.StagesRun.{StopsStages};
ghost use Rattle.tox_text.specs.declared.fault.DryFault.TheVariants.{ReadFault, WriteFault};
ghost use Rattle.tox_runs.specs.declared.runs.fault.StagesFault.TheVariants.{Dry};

use crate::runs::checked_input::{CheckedInput, read_checked};
use crate::runs::fault::StagesFault;
use crate::runs::outcome_slices::OutcomeSlices;
use crate::runs::second_pass::write_text;
use std::alloc::Global;
use std::sync::Wait;
use std::thread::Threads;
use tox_defs::Chain;
use tox_stages::run_stages;
use tox_text::{DryFault, list_arrivals};
use tox_time::{EndFault, Gate, Outcome, Sink, Source};
use tox_words::Words;

/// Reads an arrivals text to its end, and writes what a chain makes of it as a result text: as
/// [`dry_run`](crate::dry_run), but by a thread for each applied toxic over rings of `cap` items, 1 to 1024.
///
/// Nothing is written after a fault of the stages.
pub fn stages_run<T: Threads + Wait + Sync, R: Source, W: Sink, G: Gate>(
    rt: &T,
    alloc: Global,
    reader: &mut R,
    writer: &mut W,
    chain: &Chain,
    words: &Words,
    cap: usize,
    gate: &G,
) -> Result<(), StagesFault>
    requires reader_works { R.failed reader.old ≡ false }
    requires writer_works { W.failed writer.old ≡ false }
    requires some { 1 ≤ cap }
    requires most { cap ≤ 1024 }
    ensures ok { OnOk result
        (WritesResult chain.now words.now (R.remaining reader.old) (R.remaining reader.new)
        (W.written writer.old) (W.written writer.new)) }
    ensures every_run { OnOk result
        (WritesEveryRest chain.now words.now (R.remaining reader.old) (R.remaining reader.new)
        (W.written writer.old) (W.written writer.new)) }
    ensures fault { IfErr result
        (StopsStages chain.now words.now (R.remaining reader.old) (R.remaining reader.new)
        (W.written writer.old) (W.written writer.new) (R.failed reader.new) (W.failed writer.new)) }
    ensures working { result ≢ Err (Dry WriteFault) → W.failed writer.new ≡ false }
    ensures reading { result ≢ Err (Dry ReadFault) → R.failed reader.new ≡ false }
    ensures most { TakesAtMost (16_777_216 + 1) (R.remaining reader.old) (R.remaining reader.new) }
{
    let CheckedInput { text, spare } = match read_checked(alloc, reader) {
        Ok(input) => input,
        Err(fault) => return Err(StagesFault::Dry(fault)),
    };
    let Ok(arrivals) = list_arrivals(alloc, &text) else {
        return Err(StagesFault::Dry(DryFault::OutOfMemory));
    };
    let outcome = match run_stages(rt, alloc, chain, words, &arrivals, cap, gate) {
        Ok(outcome) => outcome,
        Err(fault) => return Err(StagesFault::Stages(fault)),
    };
    if write_outcome(writer, &text, spare, &outcome).is_err() {
        return Err(StagesFault::Dry(DryFault::WriteFault));
    }
    Ok(())
}

/// Writes the result text of a text without faults and of what was delivered of it.
fn write_outcome<W: Sink>(
    writer: &mut W,
    text: &[u8],
    spare: Vec<u8>,
    outcome: &Outcome,
) -> Result<(), EndFault>
    requires working { W.failed writer.old ≡ false }
    requires checked { IsChecked text.now (vec_capacity spare) }
    requires neighbours { ForOk (arrivals_of text.now)
        (λ arrived. AreNeighbours (arrival_list arrived.items) 0 outcome.now.slices) }
    ensures { ForOk (arrivals_of text.now) (λ arrived.
        Writes result (W.written writer.old) (W.written writer.new) (W.failed writer.new)
        (result_text arrived (slices_table outcome.now.slices) outcome.now.ending)) }
{
    write_text(&mut OutcomeSlices::new(outcome), writer, text, spare)
}
