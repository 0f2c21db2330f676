//! An arrivals text that was read whole and has no fault, with room for the bytes of each line.
ghost use Rattle.std.specs.Prelude.{◌≡◌, ◌≢◌, ◌+◌, false, vec_capacity, IfOk, IfErr, Err};
ghost use Rattle.tox_text.specs.arrivals.Checked.{IsChecked};
ghost use Rattle.tox_runs.specs.runs.Reading.{HasCause, ReadsWhole, TakesAtMost};

use crate::runs::whole_input::read_input;
use std::alloc::Global;
use tox_text::{DryFault, check_arrivals};
use tox_time::Source;

/// A text without faults, and a vector with room for the bytes of each of its lines.
#[derive(Drop)]
pub(crate) struct CheckedInput {
    pub(crate) text: Vec<u8>,
    pub(crate) spare: Vec<u8>,
}

/// Reads an arrivals text to its end and checks it. Reserves all that its second pass needs.
pub(crate) fn read_checked<R: Source>(
    alloc: Global,
    reader: &mut R,
) -> Result<CheckedInput, DryFault>
    requires { R.failed reader.old ≡ false }
    ensures read { IfOk result
        (λ input. ReadsWhole (R.remaining reader.old) (R.remaining reader.new) input.text.items) }
    ensures checked { IfOk result
        (λ input. IsChecked input.text.items (vec_capacity input.spare)) }
    ensures cause { IfErr result
        (HasCause (R.remaining reader.old) (R.remaining reader.new) (R.failed reader.new) false) }
    ensures working { result ≢ Err DryFault.ReadFault → R.failed reader.new ≡ false }
    ensures most { TakesAtMost (16_777_216 + 1) (R.remaining reader.old) (R.remaining reader.new) }
{
    let text = read_input(alloc, reader)?;
    let longest = check_arrivals(&text)?;
    let Ok(spare) = Vec::with_capacity(alloc, longest) else {
        return Err(DryFault::OutOfMemory);
    };
    Ok(CheckedInput { text, spare })
}
