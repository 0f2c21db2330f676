//! The check of an arrivals text, which keeps no list of what arrived.
ghost use Rattle.std.specs.Prelude.{◌≡◌, ◌+◌, ◌<◌, ◌≤◌, ◌^◌, false, true, length, None, Some, Ok, Err, IfOk, IfErr, OnOk};
ghost use Rattle.tox_text.specs.arrivals.ArrivalsText.{Arrived, arrivals_of, lines_of, after_line};
ghost use Rattle.tox_text.specs.arrivals.Checked.{IsChecked, half_longest};
ghost use Rattle.tox_text.specs.arrivals.Counting.{Counts};

use crate::arrivals::arrivals_line::{Event, line_of};
use crate::arrivals::hex_pairs::are_pairs;
use crate::arrivals::text_lines::first_line;
use crate::fault::DryFault;
use tox_time::StreamPosition;

/// Checks an arrivals text. Returns half of its longest line, rounded up, or the first fault with its line. No data line
/// has more bytes than that.
pub fn check_arrivals(text: &[u8]) -> Result<usize, DryFault>
    requires { length text.now < 2 ^ 40 }
    ensures ok { IfOk result (IsChecked text.now) }
    ensures longest { IfOk result (λ longest. longest ≡ half_longest (lines_of text.now)) }
    ensures fault { IfErr result (λ e. arrivals_of text.now ≡ Err e) }
{
    let mut so_far = StreamPosition::start();
    let mut longest = 0;
    let mut number = 0;
    let mut left = Some(text);
    while let Some(rest) = left {
        let (line, others) = first_line(rest);
        number += 1;
        add_line(&mut so_far, line, number)?;
        longest = line.len().div_ceil(2).max(longest);
        left = others;
    }
    Ok(longest)
}

/// Adds what a line says.
fn add_line(so_far: &mut StreamPosition, line: &[u8], number: u64) -> Result<(), DryFault>
    ensures ok { OnOk result ((before : Arrived) → Counts so_far.old before
        → (after : Arrived) × (after_line number before line.now ≡ Ok after)
        × Counts so_far.new after) }
    ensures fault { IfErr result (λ e. (before : Arrived) → Counts so_far.old before
        → after_line number before line.now ≡ Err e) }
{
    if line.is_empty() {
        return Ok(());
    }
    let Some(said) = line_of(line) else {
        return Err(DryFault::BadLine(number));
    };
    match said.event {
        Event::Data(digits) => {
            if !are_pairs(digits) {
                return Err(DryFault::BadLine(number));
            }
            match so_far.with_piece(digits.len() as u64 / 2, said.instant) {
                Ok(next) => *so_far = next,
                Err(fault) => return Err(DryFault::Arrival(fault, number)),
            }
        }
        Event::Eof => match so_far.with_end(said.instant) {
            Ok(next) => *so_far = next,
            Err(fault) => return Err(DryFault::Arrival(fault, number)),
        },
    }
    Ok(())
}
