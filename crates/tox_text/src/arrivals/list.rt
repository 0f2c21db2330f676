//! The arrival list of a text without faults.
ghost use Rattle.std.specs.Prelude.{◌≡◌, Ok, IfOk};
ghost use Rattle.std.specs.Result.{ForOk};
ghost use Rattle.tox_text.specs.arrivals.ArrivalsText.{Arrived, arrivals_of};

use crate::arrivals::arrivals_line::{Event, line_of};
use crate::arrivals::text_lines::first_line;
use std::alloc::{AllocError, Global};
use tox_time::Arrivals;

/// What arrived, as a text without faults says.
pub fn list_arrivals(alloc: Global, text: &[u8]) -> Result<Arrivals, AllocError>
    requires faultless { (arrived : Arrived) × (arrivals_of text.now ≡ Ok arrived) }
    ensures { IfOk result
        (λ arrivals. ForOk (arrivals_of text.now) (λ arrived. arrivals ≡ arrived.items)) }
{
    let mut arrivals = Arrivals::new(alloc);
    let mut left = Some(text);
    while let Some(rest) = left {
        let (line, others) = first_line(rest);
        left = others;
        let Some(said) = line_of(line) else {
            continue;
        };
        let added = match said.event {
            Event::Data(digits) => arrivals.push(digits.len() as u64 / 2, said.instant),
            Event::Eof => arrivals.eof(said.instant),
        };
        if added.is_err() {
            return Err(AllocError);
        }
    }
    Ok(arrivals)
}
