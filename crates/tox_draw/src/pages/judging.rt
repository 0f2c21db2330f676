//! What a judged log says of its stream.
ghost use Rattle.std.specs.Prelude.{IfOk};
ghost use Rattle.tox_draw.specs.pages.Reports.{IsStreamOf};

use crate::form::chosen_toxics;
use crate::pages::outcome::Outcome;
use crate::pages::row::StreamFacts;
use crate::pages::stream_end::{StreamEnd, cutter_of};
use std::alloc::{AllocError, Global};
use tox_log::JudgedLog;
use tox_text::VisibleName;
use tox_words::Words;

/// What a judged log says of its stream.
pub(crate) fn facts_of(alloc: Global, log: &JudgedLog) -> Result<StreamFacts, AllocError>
    ensures { IfOk result (IsStreamOf log.now) }
{
    let heading = &log.heading;
    let Ok(words) = Words::from_seed(alloc, heading.seed, heading.number, heading.stream) else {
        return Err(AllocError);
    };
    let outcome = Outcome::of(log);
    let cutter = cutter_of(&log.chain, &words);
    Ok(StreamFacts {
        proxy: format!(in alloc; "{}", VisibleName(heading.proxy.as_str()))?,
        link: heading.number,
        stream: heading.stream,
        seed: heading.seed,
        toxics: chosen_toxics(alloc, &log.chain, &words, true)?,
        skipped: chosen_toxics(alloc, &log.chain, &words, false)?,
        heard: log.heard,
        said: log.said,
        outcome,
        end: StreamEnd::of(&outcome, &log.source_end, log.source_reset, cutter),
        late: log.late,
    })
}
