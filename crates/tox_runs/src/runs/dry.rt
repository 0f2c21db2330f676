//! The dry run: arrivals in, the result of a chain out, with no clock and no socket.
ghost use Rattle.std.specs.Prelude.{◌≡◌, ◌≢◌, ◌+◌, false, vec_capacity, OnOk, IfErr, Err};
ghost use Rattle.std.specs.Result.{ForOk};
ghost use Rattle.tox_runs.specs.runs.DryRun.{StopsDry, WritesEveryRest, WritesResult, flow_text};
ghost use Rattle.tox_runs.specs.runs.Reading.{TakesAtMost};
ghost use Rattle.tox_text.specs.arrivals.ArrivalsText.{arrivals_of};
ghost use Rattle.tox_text.specs.arrivals.Checked.{IsChecked};
ghost use Rattle.tox_text.specs.Writing.{Writes};
ghost use Rattle.tox_text.specs.declared.fault.DryFault.TheVariants.{ReadFault, WriteFault};

use crate::runs::checked_input::{CheckedInput, read_checked};
use crate::runs::second_pass::write_text;
use std::alloc::Global;
use tox_compile::compile;
use tox_defs::Chain;
use tox_plan::Runner;
use tox_text::DryFault;
use tox_time::{EndFault, Sink, Source};
use tox_words::Words;

/// Reads an arrivals text to its end, and writes what a chain makes of it as a result text: what every run of the
/// chain's stage network that has come to rest delivered, in whatever order its stages stepped.
///
/// At most one byte more than [`MAX_INPUT`](crate::MAX_INPUT) is read. The first fault of the text is
/// returned with its line, from 1. Nothing is written after a fault, except after
/// [`WriteFault`](DryFault::WriteFault): then a prefix of the result is.
pub fn dry_run<R: Source, W: Sink>(
    alloc: Global,
    reader: &mut R,
    writer: &mut W,
    chain: &Chain,
    words: &Words,
) -> Result<(), DryFault>
    requires reader_works { R.failed reader.old ≡ false }
    requires writer_works { W.failed writer.old ≡ false }
    ensures ok { OnOk result
        (WritesResult chain.now words.now (R.remaining reader.old) (R.remaining reader.new)
        (W.written writer.old) (W.written writer.new)) }
    ensures every_run { OnOk result
        (WritesEveryRest chain.now words.now (R.remaining reader.old) (R.remaining reader.new)
        (W.written writer.old) (W.written writer.new)) }
    ensures fault { IfErr result
        (StopsDry chain.now words.now (R.remaining reader.old) (R.remaining reader.new)
        (W.written writer.old) (W.written writer.new) (R.failed reader.new) (W.failed writer.new)) }
    ensures working { result ≢ Err WriteFault → W.failed writer.new ≡ false }
    ensures reading { result ≢ Err ReadFault → R.failed reader.new ≡ false }
    ensures most { TakesAtMost (16_777_216 + 1) (R.remaining reader.old) (R.remaining reader.new) }
{
    let CheckedInput { text, spare } = read_checked(alloc, reader)?;
    if write_flow(writer, &text, spare, chain, words).is_err() {
        return Err(DryFault::WriteFault);
    }
    Ok(())
}

/// Writes the result text of a text without faults, by the plan of a chain.
fn write_flow<W: Sink>(
    writer: &mut W,
    text: &[u8],
    spare: Vec<u8>,
    chain: &Chain,
    words: &Words,
) -> Result<(), EndFault>
    requires working { W.failed writer.old ≡ false }
    requires checked { IsChecked text.now (vec_capacity spare) }
    ensures { ForOk (arrivals_of text.now) (λ arrived.
        Writes result (W.written writer.old) (W.written writer.new) (W.failed writer.new)
        (flow_text chain.now words.now arrived)) }
{
    let mut runner = Runner::new(compile(chain, words), words);
    write_text(&mut runner, writer, text, spare)
}
