//! A network of stages, and its moves.
ghost use Rattle.std.specs.Prelude.{◌≡◌, ◌≤◌, ◌↔◌, Some, None, IfNone, IfSome, IfErr, IfOk, length, IsNone, IsSome, IsSomeAnd, OnOk, OnErr, IsTrue, IsFalse};
ghost use Rattle.std.specs.Result.{IsErrOf};
ghost use Rattle.tox_time.specs.streams.Arrivals.{arrival_list};
ghost use Rattle.tox_time.specs.streams.Table.{IsOutcomeOf};
ghost use Rattle.tox_network.specs.declared.moves.Move.TheVariants.{Arrive, Take, Put, Deliver};
ghost use Rattle.tox_network.specs.Moves.{after};
ghost use Rattle.tox_network.specs.runs.RunLaws.{HasRunLaws};
ghost use Rattle.tox_network.specs.runs.Runs.{IsAtRest};
ghost use Rattle.tox_network.specs.runs.EventualDelivery.{IsEmpty, most_moves};
ghost use Rattle.tox_network.specs.Possible.{possible, possible_before};
ghost use Rattle.tox_network.specs.runs.Settling.{turn, Settles, IsRefusedAt};
ghost use Rattle.tox_network.specs.Shown.{shown};

use crate::delivered::Delivered;
use crate::fault::StepFault;
use crate::moves::Move;
use crate::queues::Queues;
use crate::stages::first_stages;
use crate::waiting::Waiting;
use std::alloc::{AllocError, Global};
use std::marker::Model;
use tox_defs::{Chain, Stage};
use tox_time::{Arrivals, Outcome};
use tox_words::Words;

/// The stages of a chain, a queue before each and one behind the last, the arrivals, and what was delivered.
#[derive(Drop)]
pub struct Network<'a> {
    waiting: Waiting<'a>,
    queues: Queues,
    stages: Vec<Stage<'a>>,
    delivered: Delivered,
    steps: u64,
}

impl<'a> Model for Network<'a> {
    ghost use Rattle.tox_network.specs.NetworkView.{NetworkView};

    ghost Value = { NetworkView };

    ghost use Rattle.tox_network.specs.NetworkInside.{network_view, KeepsNetwork};

    ghost view = { network_view };

    ghost invariant = { KeepsNetwork };
}

impl<'a> Network<'a> {
    ghost use Rattle.tox_network.specs.NetworkView.{state_of, IsStart, IsStep, HasChunkFirst};

    /// A network in which all arrivals wait, with queues of `cap` items, from 1 to 1024. It has a stage for each
    /// toxic of the chain that a link with these words meets.
    ///
    /// Its clauses state the laws of every run, for every order of moves and every room: at rest the chain's flow
    /// was delivered.
    pub fn new(
        alloc: Global,
        chain: &Chain,
        words: &'a Words,
        arrivals: &'a Arrivals,
        cap: usize,
    ) -> Result<Network<'a>, AllocError>
        requires some { 1 ≤ cap }
        requires most { cap ≤ 1024 }
        ensures start { IfOk result (IsStart chain.now words.now (arrival_list arrivals.now) cap) }
        ensures laws { HasRunLaws chain.now words.now (arrival_list arrivals.now) }
    {
        let waiting = Waiting::new(arrivals);
        let stages = first_stages(alloc, chain, words)?;
        let queues = Queues::new(alloc, stages.len() + 1, cap)?;
        Ok(Network {
            waiting,
            queues,
            stages,
            delivered: Delivered::new(alloc),
            steps: 0,
        })
    }

    /// The next arrival enters queue 0, if that has room.
    fn arrive(&mut self) -> bool
        ensures moved { IsTrue result → IsStep Arrive self.old self.new }
        ensures refused { IsFalse result
            → (after self.old.cap (state_of self.old) Arrive ≡ None) × (self.new ≡ self.old) }
    {
        if self.waiting.is_empty() || !self.queues.has_room(0) {
            return false;
        }
        let item = self.waiting.pop();
        self.queues.push(0, item);
        self.steps += 1;
        true
    }

    /// A stage with nothing left to emit takes the first item of the queue before it.
    fn take(&mut self, place: usize) -> bool
        ensures moved { IsTrue result → IsStep (Take place) self.old self.new }
        ensures refused { IsFalse result
            → (after self.old.cap (state_of self.old) (Take place) ≡ None) × (self.new ≡ self.old) }
    {
        if place >= self.stages.len()
            || !self.stages[place].is_idle()
            || self.queues.is_empty(place)
        {
            return false;
        }
        let item = self.queues.pop(place);
        let stage = &mut self.stages[place];
        stage.take(item);
        self.steps += 1;
        true
    }

    /// A stage emits its next item into the queue behind it, if that has room.
    fn put(&mut self, place: usize) -> bool
        ensures moved { IsTrue result → IsStep (Put place) self.old self.new }
        ensures refused { IsFalse result
            → (after self.old.cap (state_of self.old) (Put place) ≡ None) × (self.new ≡ self.old) }
    {
        if place >= self.stages.len()
            || self.stages[place].is_idle()
            || !self.queues.has_room(place + 1)
        {
            return false;
        }
        let stage = &mut self.stages[place];
        let Some(item) = stage.emit() else {
            unreachable!()
        };
        self.queues.push(place + 1, item);
        self.steps += 1;
        true
    }

    /// The first item of the last queue is delivered.
    fn deliver(&mut self) -> Result<(), StepFault>
        ensures moved { OnOk result (IsStep Deliver self.old self.new) }
        ensures refused { IsErrOf result StepFault.NotPossible
            ↔ (after self.old.cap (state_of self.old) Deliver ≡ None) }
        ensures unchanged { OnErr result (self.new ≡ self.old) }
        ensures memory { IsErrOf result StepFault.OutOfMemory → HasChunkFirst self.old }
    {
        let last = self.stages.len();
        if self.queues.is_empty(last) {
            return Err(StepFault::NotPossible);
        }
        let item = self.queues.first(last);
        if self.delivered.push(item).is_err() {
            return Err(StepFault::OutOfMemory);
        }
        self.queues.pop(last);
        self.steps += 1;
        Ok(())
    }

    /// Makes a move. Fails if it isn't possible, or out of memory for a delivered chunk. A failure leaves the network
    /// unchanged.
    pub fn step(&mut self, next: Move) -> Result<(), StepFault>
        ensures moved { OnOk result (IsStep next self.old self.new) }
        ensures refused { IsErrOf result StepFault.NotPossible
            ↔ (after self.old.cap (state_of self.old) next ≡ None) }
        ensures unchanged { OnErr result (self.new ≡ self.old) }
        ensures memory { IsErrOf result StepFault.OutOfMemory
            → (next ≡ Deliver) × HasChunkFirst self.old }
    {
        let made = match next {
            Move::Arrive => self.arrive(),
            Move::Take(place) => self.take(place),
            Move::Put(place) => self.put(place),
            Move::Deliver => return self.deliver(),
        };
        if made {
            Ok(())
        } else {
            Err(StepFault::NotPossible)
        }
    }

    /// Of the moves before stage `count`, the last that finds an item.
    fn possible_before(&self, count: usize) -> Option<Move>
        requires { count ≤ length self.now.stages }
        ensures { result ≡ possible_before (state_of self.now) count }
    {
        for place in (0..count).rev() {
            if !self.stages[place].is_idle() {
                return Some(Move::Put(place));
            }
            if !self.queues.is_empty(place) {
                return Some(Move::Take(place));
            }
        }
        if self.waiting.is_empty() {
            None
        } else {
            Some(Move::Arrive)
        }
    }

    /// The default move: the possible one nearest to the output. None exactly at rest.
    pub fn possible(&self) -> Option<Move>
        ensures value { result ≡ possible (state_of self.now) }
        ensures rest { IsNone result ↔ IsAtRest self.now.cap (state_of self.now) }
        ensures some { IfSome result
            (λ next. IsSome (after self.now.cap (state_of self.now) next)) }
        ensures empty { IfNone result (IsEmpty (state_of self.now)) }
    {
        let last = self.stages.len();
        if self.queues.is_empty(last) {
            self.possible_before(last)
        } else {
            Some(Move::Deliver)
        }
    }

    /// Makes the listed move if it is possible, else the other one.
    fn turn(&mut self, listed: Option<Move>, other: Move) -> Result<(), StepFault>
        requires other { possible (state_of self.old) ≡ Some other }
        requires possible { IsSome (after self.old.cap (state_of self.old) other) }
        ensures made { OnOk result (IsSomeAnd (turn self.old.cap listed (state_of self.old))
            (λ next. IsStep next self.old self.new)) }
        ensures unchanged { OnErr result (self.new ≡ self.old) }
        ensures memory { IfErr result
            (λ fault. (fault ≡ StepFault.OutOfMemory)
            × (turn self.old.cap listed (state_of self.old) ≡ Some Deliver)
            × HasChunkFirst self.old) }
    {
        if let Some(next) = listed {
            match self.step(next) {
                Err(StepFault::NotPossible) => {}
                answer => return answer,
            }
        }
        self.step(other)
    }

    /// Makes moves until rest. Each turn takes the next move off the list and makes it if it is possible, else the
    /// default move. Out of memory stops it; the moves made before stay.
    pub fn settle(&mut self, moves: &[Move]) -> Result<(), StepFault>
        ensures rest { OnOk result (IsAtRest self.new.cap (state_of self.new)) }
        ensures made { Settles moves.now self.old self.new }
        ensures memory { IfErr result
            (λ fault. (fault ≡ StepFault.OutOfMemory) × IsRefusedAt moves.now self.old self.new) }
    {
        let mut listed = moves.iter();
        while let Some(other) = self.possible() {
            self.turn(listed.next().copied(), other)?;
        }
        Ok(())
    }

    /// How many moves were made.
    pub fn steps(&self) -> u64
        ensures value { result ≡ self.now.steps }
        ensures most { result ≤ most_moves (length self.now.stages) self.now.arrived }
    {
        self.steps
    }

    /// What was delivered, at rest: a slice for each chunk, and the ending of the final.
    pub fn outcome(self) -> Outcome
        requires { IsAtRest self.cap (state_of self) }
        ensures shown { shown result.slices (Some result.ending) ≡ self.entry.delivered }
        ensures outcome { IsOutcomeOf self.entry.delivered result }
    {
        let Network {
            waiting: _,
            queues: _,
            stages: _,
            delivered,
            steps: _,
        } = self;
        delivered.into_outcome()
    }
}
