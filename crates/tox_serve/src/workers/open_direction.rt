//! One direction of a link whose upstream is connected.
ghost use Rattle.std.specs.Prelude.{◌≡◌, None, Some, IfSome, option_copied, not, true, false};
ghost use Rattle.tox_serve.specs.workers.Directions.{IsOf, IsOf-prop};

use crate::link::end::Carried;
use crate::workers::flow::{EndedFlow, Flow};
use crate::workers::socket_event::SocketEvent;
use std::alloc::Global;
use std::mem;
use std::sync::Wait;
use std::time::Clock;
use tox_link::{LinkFault, Progress, SCRATCH_SIZE};
use tox_log::StreamNotes;
use tox_sockets::{LinkSockets, LinkStart, SinceStart};
use tox_time::Stream;

/// The state of a direction.
#[derive(Drop)]
pub(crate) enum DirectionState<'r, R> {
    Going(Flow<'r, R>),
    Ended(EndedFlow<'r, R>),
    /// It is being driven.
    Driven,
}

/// One direction of a link.
#[derive(Drop)]
pub(crate) struct OpenDirection<'r, R> {
    pub(crate) stream: Stream,
    pub(crate) state: DirectionState<'r, R>,
    /// When its earliest timer is due, by the worker's clock.
    armed: Option<u64>,
    /// Whether it has a turn that waits.
    has_turn: bool,
    ghost of_stream: { IsOf stream state } by { IsOf-prop stream state },
}

impl<'r, R: Clock + Wait> OpenDirection<'r, R> {
    ghost use Rattle.tox_serve.specs.declared.workers.open_direction.DirectionState.TheVariants.{Going as GoesOn};
    ghost use Rattle.tox_serve.specs.workers.Directions.{IsBrokenOffFrom, carried_of, disarmed, is_armed};
    ghost use Rattle.tox_serve.specs.workers.Reports.{IsAfterSource, IsAfterTarget, IsNotedSo};
    ghost use Rattle.tox_serve.specs.workers.OpenLinks.{IsSameDirection};
    ghost use Rattle.tox_serve.specs.workers.Steps.{Runs, needs_timer};
    ghost use Rattle.tox_serve.specs.workers.Waits.{earlier_of};

    /// A direction that goes on.
    pub(crate) fn new(flow: Flow<'r, R>) -> OpenDirection<'r, R>
        ensures stream { result.stream ≡ flow.entry.stream }
        ensures state { result.state ≡ GoesOn flow.entry }
        ensures armed { result.armed ≡ None }
        ensures turn { result.has_turn ≡ false }
    {
        OpenDirection {
            stream: flow.stream,
            state: DirectionState::Going(flow),
            armed: None,
            has_turn: false,
        }
    }

    /// Claims a turn. False if it has one.
    pub(crate) fn claim_turn(&mut self) -> bool
        ensures claims { result ≡ not self.old.has_turn }
        ensures claimed { self.new.has_turn ≡ true }
        ensures same { IsSameDirection self.old self.new }
    {
        let claims = !self.has_turn;
        self.has_turn = true;
        claims
    }

    /// Takes its turn.
    pub(crate) fn take_turn(&mut self)
        ensures taken { self.new.has_turn ≡ false }
        ensures same { IsSameDirection self.old self.new }
    {
        self.has_turn = false;
    }

    /// Replaces its notes, unless it has ended.
    pub(crate) fn log(&mut self, notes: StreamNotes<'r, R>)
        ensures state { IsNotedSo notes.entry self.old.state self.new.state }
        ensures same { (self.new.stream ≡ self.old.stream) × (self.new.armed ≡ self.old.armed)
            × (self.new.has_turn ≡ self.old.has_turn) }
    {
        if let DirectionState::Going(flow) = &mut self.state {
            flow.notes.change(notes);
        }
    }

    /// Notes an event of its source. Whether the direction is to be driven.
    pub(crate) fn note_source(&mut self, event: &SocketEvent) -> bool
        ensures stream { self.new.stream ≡ self.old.stream }
        ensures after { IsAfterSource event.now self.old self.new result }
    {
        match &mut self.state {
            DirectionState::Going(flow) if event.readable => {
                flow.source.note(event.closing, event.urgent);
                true
            }
            _ => false,
        }
    }

    /// Notes an event of its target. Whether the direction is to be driven.
    pub(crate) fn note_target(&mut self, event: &SocketEvent) -> bool
        ensures stream { self.new.stream ≡ self.old.stream }
        ensures after { IsAfterTarget event.now self.old self.new result }
    {
        match &mut self.state {
            DirectionState::Going(flow) if event.writable => flow.sink.note() || event.gone,
            _ => false,
        }
    }

    /// Whether it waits for a timer that is due at an instant.
    pub(crate) fn is_armed(&self, due: u64) -> bool
        ensures { result ≡ is_armed due self.now.armed }
    {
        self.armed == Some(due)
    }

    /// A timer of it has fired.
    pub(crate) fn disarm(&mut self, due: u64)
        ensures armed { self.new.armed ≡ disarmed due self.old.armed }
        ensures same { (self.new.stream ≡ self.old.stream) × (self.new.state ≡ self.old.state)
            × (self.new.has_turn ≡ self.old.has_turn) }
    {
        if self.armed == Some(due) {
            self.armed = None;
        }
    }

    /// Drives it for its turn, and returns the answer. A direction that has ended waits.
    pub(crate) fn run(
        &mut self,
        rt: &'r R,
        alloc: Global,
        sockets: &LinkSockets,
        start: LinkStart,
        scratch: &mut [u8; SCRATCH_SIZE],
    ) -> Result<Progress, LinkFault>
        ensures stream { self.new.stream ≡ self.old.stream }
        ensures runs { Runs self.old self.new result }
    {
        let flow = match mem::replace(&mut self.state, DirectionState::Driven) {
            DirectionState::Going(flow) => flow,
            other => {
                self.state = other;
                return Ok(Progress::Waits(None));
            }
        };
        let clock = SinceStart::new(rt, start);
        let (state, answer) = flow.advance(alloc, &clock, sockets, scratch);
        self.state = state;
        answer
    }

    /// Waits until an instant of the worker's clock. Whether that needs a new timer: an earlier one serves too, and drives it once
    /// more.
    pub(crate) fn arm(&mut self, due: u64) -> bool
        ensures armed { self.new.armed ≡ earlier_of self.old.armed (Some due) }
        ensures same { (self.new.stream ≡ self.old.stream) × (self.new.state ≡ self.old.state)
            × (self.new.has_turn ≡ self.old.has_turn) }
        ensures needs { result ≡ needs_timer self.old.armed due }
    {
        if self.armed.is_some_and(|armed| armed <= due) {
            return false;
        }
        self.armed = Some(due);
        true
    }

    /// Breaks it off, unless it has ended: out of memory.
    pub(crate) fn break_off(&mut self, sockets: &LinkSockets)
        ensures state { IsBrokenOffFrom self.old.stream self.old.state self.new.state }
        ensures same { (self.new.stream ≡ self.old.stream) × (self.new.armed ≡ self.old.armed)
            × (self.new.has_turn ≡ self.old.has_turn) }
    {
        self.state = match mem::replace(&mut self.state, DirectionState::Driven) {
            DirectionState::Going(flow) => DirectionState::Ended(flow.break_off(sockets)),
            other => other,
        };
    }

    /// What it carried, if it has ended.
    pub(crate) fn carried(&self) -> Option<&Carried>
        ensures stream { IfSome result (λ carried. carried.now.stream ≡ self.now.stream) }
        ensures carried { option_copied result ≡ carried_of self.now.state }
    {
        match &self.state {
            DirectionState::Ended(ended) => Some(&ended.carried),
            _ => None,
        }
    }
}
