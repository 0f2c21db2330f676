//! Trying a call with ever more memory.
use crate::scarcity::Scarcity;
use std::test::Fail;

/// How often a call is tried at most.
pub const MAX_TRIES: usize = 16_384;

/// What a call returned.
#[derive(Clone, Copy, Debug, PartialEq, Eq)]
pub enum Tried {
    /// The value or the fault that it returns with ample memory.
    Answered,
    /// Its fault for refused memory.
    NoMemory,
    /// Its fault for a refused thread.
    NoThread,
    /// Something else.
    Wrong,
}

impl Tried {
    /// Wrong unless it wrote this text after its answer, and else nothing.
    pub fn writing(self, written: &[u8], text: &str) -> Tried {
        let expected = match self {
            Tried::Answered => text.as_bytes(),
            Tried::NoMemory | Tried::NoThread | Tried::Wrong => b"",
        };
        if written == expected {
            self
        } else {
            Tried::Wrong
        }
    }
}

/// What an answer is, where this fault stands for refused memory.
pub fn answer_of<T, E: PartialEq + Drop>(answer: &Result<T, E>, memory: &E) -> Tried {
    match answer {
        Ok(_) => Tried::Answered,
        Err(fault) if fault == memory => Tried::NoMemory,
        Err(_) => Tried::Wrong,
    }
}

/// How often a call was refused memory and a thread, what the last try returned, and whether it was answered in the end.
#[derive(Clone, Copy, Debug, PartialEq, Eq)]
pub struct Refusals {
    pub memory: usize,
    pub threads: usize,
    pub last: Option<Tried>,
    pub is_answered: bool,
}

impl Refusals {
    /// Counts a try. Fails at a wrong answer.
    fn add(&mut self, tried: Tried) -> Result<(), Fail> {
        self.last = Some(tried);
        match tried {
            Tried::Answered => self.is_answered = true,
            Tried::NoMemory => self.memory = self.memory.saturating_add(1),
            Tried::NoThread => self.threads = self.threads.saturating_add(1),
            Tried::Wrong => return Err("another answer than with ample memory".into()),
        }
        Ok(())
    }
}

/// Makes tries 0, 1, 2 and so on, at most so many, until one is answered.
pub fn try_each<Try: FnMut(&mut Scarcity, usize) -> Result<Tried, Fail>>(
    scarcity: &mut Scarcity,
    tries: usize,
    attempt: Try,
) -> Result<Refusals, Fail>
    requires { Try.IsAlwaysCallable attempt }
{
    let mut attempt = attempt;
    let mut refusals = Refusals {
        memory: 0,
        threads: 0,
        last: None,
        is_answered: false,
    };
    for nth in 0..tries {
        refusals.add(attempt(scarcity, nth)?)?;
        if refusals.is_answered {
            break;
        }
    }
    Ok(refusals)
}
