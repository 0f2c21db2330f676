//! How far a runner is with its offered piece, and with its stream.
ghost use Rattle.std.specs.Prelude.{◌≡◌, true, false, Some, None};
ghost use Rattle.tox_plan.specs.Phase.{phase_view};

use tox_time::Ending;

/// How far a runner is. Whoever has an ending keeps it.
#[derive(Clone, Copy)]
pub(crate) enum Phase {
    /// A further cut may be found in the offered piece.
    Cutting,
    /// The last cut of the offered piece is found.
    Drained,
    /// Nothing is left of the offered piece.
    Idle,
    /// An operation has ended the stream. The last cut may still be given.
    Closing(Ending),
    /// An operation has ended the stream, and nothing is left.
    Ended(Ending),
    /// It was reported that the source has ended, or that nothing more comes.
    Finished(Ending),
}

impl Phase {
    /// Before the first offer, where the operations know this ending.
    pub fn first(ending: &Option<Ending>) -> Phase
        ensures { phase_view result
            ≡ record { drained = true; ending = ending.now; finished = false; idle = true } }
    {
        match ending {
            Some(ending) => Phase::Ended(*ending),
            None => Phase::Idle,
        }
    }

    /// Whether no further cut is to be found.
    pub fn is_drained(&self) -> bool
        ensures { result ≡ (phase_view self.now).drained }
    {
        match self {
            Phase::Cutting => false,
            _ => true,
        }
    }

    /// Whether nothing is left of the offered piece.
    pub fn is_idle(&self) -> bool
        ensures { result ≡ (phase_view self.now).idle }
    {
        match self {
            Phase::Cutting | Phase::Drained | Phase::Closing(_) => false,
            Phase::Idle | Phase::Ended(_) | Phase::Finished(_) => true,
        }
    }

    /// The ending, once it is found.
    pub fn ending(&self) -> Option<Ending>
        ensures { result ≡ (phase_view self.now).ending }
    {
        match self {
            Phase::Cutting | Phase::Drained | Phase::Idle => None,
            Phase::Closing(ending) | Phase::Ended(ending) | Phase::Finished(ending) => {
                Some(*ending)
            }
        }
    }

    /// After an offer.
    pub fn after_offer(&self) -> Phase
        requires { (phase_view self.now).ending ≡ None }
        ensures { phase_view result
            ≡ record (phase_view self.now) { drained = false; idle = false } }
    {
        Phase::Cutting
    }

    /// After a look that found a cut, perhaps the last one.
    pub fn after_cut(&self, last: bool) -> Phase
        requires { (phase_view self.now).drained ≡ false }
        ensures { phase_view result ≡ record (phase_view self.now) { drained = last } }
    {
        if last { Phase::Drained } else { Phase::Cutting }
    }

    /// After a look that found an ending.
    pub fn after_end(&self, ending: &Ending) -> Phase
        requires { (phase_view self.now).drained ≡ false }
        ensures { phase_view result
            ≡ record (phase_view self.now) { drained = true; ending = Some ending.now } }
    {
        Phase::Closing(*ending)
    }

    /// Once nothing is left.
    pub fn after_all(&self) -> Phase
        requires { (phase_view self.now).drained ≡ true }
        ensures { phase_view result ≡ record (phase_view self.now) { idle = true } }
    {
        match self {
            Phase::Drained => Phase::Idle,
            Phase::Closing(ending) => Phase::Ended(*ending),
            _ => *self,
        }
    }

    /// Once it was reported that nothing more comes.
    pub fn after_finish(&self, ending: &Ending) -> Phase
        requires { (phase_view self.now).idle ≡ true }
        ensures { phase_view result
            ≡ record (phase_view self.now) { ending = Some ending.now; finished = true } }
    {
        Phase::Finished(*ending)
    }
}
