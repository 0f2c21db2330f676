//! What an event is about, as the number of its token.
ghost use Rattle.std.specs.Prelude.{◌≡◌, ◌<◌, ◌-◌, ◌^◌};
ghost use Rattle.tox_serve.specs.workers.Tokens.{HasToken, key_number, token_number};

use crate::workers::link_key::LinkKey;
use mio::Token;

/// The first number past those of slots.
pub(crate) const MAX_SLOTS: usize = 1_073_741_824;

/// One more than the greatest generation.
const GENERATIONS: usize = 4_294_967_296;

/// What an event is about.
#[derive(Clone, Copy)]
pub(crate) enum Subject {
    Client(LinkKey),
    Server(LinkKey),
    /// The listener of the proxy at this place.
    Listener(u32),
    /// Another thread has woken the worker.
    Waker,
}

/// The token of a subject: a link's generation and slot, or a proxy's place, and in the last two bits the kind of subject.
pub(crate) fn token_of(subject: Subject) -> Token
    ensures { HasToken subject → result.0 ≡ token_number subject }
{
    match subject {
        Subject::Client(key) => Token(key_number(key)),
        Subject::Server(key) => Token(key_number(key) + 1),
        Subject::Listener(place) => Token(place as usize * 4 + 2),
        Subject::Waker => Token(3),
    }
}

fn key_number(key: LinkKey) -> usize
    ensures number { key.slot < 2 ^ 30 → result ≡ key_number key }
    ensures fits { result < 2 ^ 64 - 1 }
{
    key.generation as usize * GENERATIONS + key.slot as usize % MAX_SLOTS * 4
}

/// The subject of a token.
pub(crate) fn subject_of(token: Token) -> Subject
    ensures { (subject : _) → HasToken subject → token.0 ≡ token_number subject → result ≡ subject }
{
    let number = token.0;
    let slot = (number / 4 % MAX_SLOTS) as u32;
    let generation = (number / GENERATIONS) as u32;
    let key = LinkKey { slot, generation };
    match number % 4 {
        0 => Subject::Client(key),
        1 => Subject::Server(key),
        2 => Subject::Listener(slot),
        _ => Subject::Waker,
    }
}
