//! `draw`: arrivals in, the picture of a link out.
ghost use Rattle.std.specs.Prelude.{◌≡◌, ◌≢◌, ◌+◌, false, true, string_bytes, IfOk, OnErr, OnOk, Err};
ghost use Rattle.tox_runs.specs.runs.Reading.{TakesAtMost};
ghost use Rattle.tox_text.specs.declared.fault.DryFault.TheVariants.{ReadFault, WriteFault};
ghost use Rattle.tox_draw.specs.Drawn.{IsPictureText, WritesPictureFront, WritesPicture};
ghost use Rattle.tox_draw.specs.Frames.{IsFrame};

use crate::form::{cut_forms, forms_of};
use crate::frame::Frame;
use crate::heading::push_heading;
use crate::link_end::LinkEnd;
use crate::picture::{Picture, picture_text};
use crate::setting::Setting;
use crate::strands::{Strands, ending_of};
use std::alloc::{AllocError, Global};
use tox_compile::compile;
use tox_defs::Chain;
use tox_plan::Runner;
use tox_runs::read_input;
use tox_text::Part::Word;
use tox_text::{DryFault, Event, check_arrivals, first_line, line_of, write_parts};
use tox_time::{Ending, Sink, Source};
use tox_words::Words;

/// Reads an arrivals text to its end, and draws what a chain makes of it.
///
/// The faults are those of [`dry_run`](tox_runs::dry_run), in their order. Nothing is written after a fault, except after
/// [`WriteFault`](DryFault::WriteFault): then a prefix of the picture is.
pub fn draw_run<R: Source, W: Sink>(
    alloc: Global,
    reader: &mut R,
    writer: &mut W,
    chain: &Chain,
    words: &Words,
) -> Result<(), DryFault>
    requires reader_works { R.failed reader.old ≡ false }
    requires writer_works { W.failed writer.old ≡ false }
    ensures ok { OnOk result
        (WritesPicture IsPictureText (W.written writer.old) (W.written writer.new)) }
    ensures unwritten { OnErr result (W.failed writer.new ≡ false
        → W.written writer.new ≡ W.written writer.old) }
    ensures front { W.failed writer.new ≡ true
        → WritesPictureFront IsPictureText (W.written writer.old) (W.written writer.new) }
    ensures working { result ≢ Err WriteFault → W.failed writer.new ≡ false }
    ensures reading { result ≢ Err ReadFault → R.failed reader.new ≡ false }
    ensures most { TakesAtMost (16_777_216 + 1) (R.remaining reader.old) (R.remaining reader.new) }
{
    let text = read_input(alloc, reader)?;
    check_arrivals(&text)?;
    let Ok(drawn) = drawn(alloc, &text, chain, words) else {
        return Err(DryFault::OutOfMemory);
    };
    if write_parts(writer, &[Word(drawn.as_str())]).is_err() {
        return Err(DryFault::WriteFault);
    }
    Ok(())
}

/// The picture of a text without faults. The text is passed over twice: for the greatest values, and then for the lines.
fn drawn(alloc: Global, text: &[u8], chain: &Chain, words: &Words) -> Result<String, AllocError>
    ensures { IfOk result (λ drawn. IsPictureText (string_bytes drawn)) }
{
    let forms = forms_of(alloc, chain, words)?;
    let mut heading = String::new(alloc);
    let lines = push_heading(&mut heading, &cut_forms(alloc, &forms)?)?;
    let widest = Frame::widest();
    let (totals, ending) = run(alloc, text, chain, words, &widest)?;
    let planned_end = LinkEnd::of(&ending);
    let latest = totals.latest(&planned_end.instant());
    let frame = Frame::new(lines, &latest, totals.arrived.total);
    let (strands, _) = run(alloc, text, chain, words, &frame)?;
    let picture = Picture {
        setting: Setting::Alone,
        forms,
        heading,
        frame,
        source_end: strands.source_end,
        source_reset: strands.source_reset,
        arrived: strands.arrived.curve(alloc, &frame)?,
        planned: strands.planned.curve(alloc, &frame)?,
        planned_end: LinkEnd::of(&ending),
        written: None,
        end: LinkEnd::of(&ending),
    };
    picture_text(alloc, &picture)
}

/// What happens on the link of a text, and how it ends.
fn run(
    alloc: Global,
    text: &[u8],
    chain: &Chain,
    words: &Words,
    frame: &Frame,
) -> Result<(Strands, Ending), AllocError>
    requires { IsFrame frame.now }
{
    let mut strands = Strands::new(alloc)?;
    let mut runner = Runner::new(compile(chain, words), words);
    let mut left = Some(text);
    while let Some(rest) = left {
        let (line, others) = first_line(rest);
        left = others;
        let Some(said) = line_of(line) else {
            continue;
        };
        match said.event {
            Event::Data(digits) => {
                strands.take_piece(&mut runner, frame, digits.len() as u64 / 2, &said.instant);
            }
            Event::Eof => strands.take_end(&mut runner, &said.instant, false),
        }
    }
    Ok((strands, ending_of(&mut runner)))
}
