//! The plain program: the arrivals pass through the stages of the applied toxics, one after another.
use crate::plan::demands::demand;
use crate::plan::settings::Setting;
use std::process::Abort;
use tox_defs::{Stage, Toxic};
use tox_time::{Arrivals, Ending, Item, Outcome, Slice, SliceList};
use tox_words::{Drawing, Lanes, Words};

/// The stage of a toxic.
pub fn stage_of<'w>(
    rt: &impl Abort,
    toxic: Toxic,
    lanes: Lanes,
    lane: usize,
    words: &'w Words,
) -> Stage<'w> {
    demand(rt, lane < lanes.count());
    demand(rt, toxic.check().is_ok());
    Stage::new(toxic, lanes, lane, words)
}

/// Gives an idle stage an item, and collects all that it emits.
fn pass(rt: &impl Abort, stage: &mut Stage<'_>, item: &Item, given: &mut Vec<Item>) {
    demand(rt, stage.is_idle());
    demand(rt, stage.may_take(item));
    stage.take(*item);
    while let Some(item) = stage.emit() {
        given.push(item).expect(rt, "memory");
    }
}

/// What a stage gives for these items, behind which it takes no more.
fn passed(rt: &(impl Abort + AllocGlobal), stage: &mut Stage<'_>, items: &[Item]) -> Vec<Item> {
    let mut given = Vec::new(rt.alloc());
    for item in items {
        pass(rt, stage, item, &mut given);
    }
    demand(rt, !stage.may_take(&Item::Quiet));
    given
}

/// The arrivals, and how their source ends.
fn arrived_items(rt: &(impl Abort + AllocGlobal), arrivals: &Arrivals) -> Vec<Item> {
    let mut items = arrivals.items().to_vec(rt.alloc()).expect(rt, "memory");
    if !matches!(items.last(), Some(Item::Closed(_))) {
        items.push(Item::Quiet).expect(rt, "memory");
    }
    items
}

/// What the applied toxics give for the arrivals.
pub fn staged_items(rt: &(impl Abort + AllocGlobal), setting: &Setting) -> Vec<Item> {
    let mut items = arrived_items(rt, &setting.arrivals);
    let lanes = setting.chain.lanes();
    let drawing = Drawing::new(lanes, &setting.words);
    for (lane, entry) in setting.chain.entries().iter().enumerate() {
        if entry.is_applied(lane, &drawing) {
            let mut stage = stage_of(rt, entry.toxic, lanes, lane, &setting.words);
            items = passed(rt, &mut stage, &items);
        }
    }
    items
}

/// The items as slices and an ending.
pub fn outcome_of(rt: &(impl Abort + AllocGlobal), items: &[Item]) -> Outcome {
    let mut slices = SliceList::new(rt.alloc());
    let mut ending = Ending::StillOpen;
    for item in items {
        match *item {
            Item::Chunk(span, instant) => {
                slices.push(Slice { span, instant }).expect(rt, "memory");
            }
            Item::Closed(instant) => ending = Ending::Closed(instant),
            Item::Reset(instant) => ending = Ending::Reset(instant),
            Item::Quiet => ending = Ending::StillOpen,
        }
    }
    Outcome { slices, ending }
}
