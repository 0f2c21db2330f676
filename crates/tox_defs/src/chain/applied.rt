//! The toxics of a chain that a link meets.
ghost use Rattle.std.specs.Prelude.{◌≡◌, All};
ghost use Rattle.tox_defs.specs.chain.Chain.{IsChain};
ghost use Rattle.tox_defs.specs.Flow.{IsPlaced, applied};

use crate::chain::{Chain, MAX_TOXICS};
use crate::toxic::Toxic;
use arrayvec::ArrayVec;
use tox_words::{Drawing, Words};

/// A toxic that a link meets, with its place in the chain as written.
#[derive(Clone, Copy, Debug, PartialEq, Eq)]
pub struct Placed {
    pub place: usize,
    pub toxic: Toxic,
}

impl Default for Placed {
    ghost use Rattle.std.specs.Prelude.{◌≡◌};
    ghost use Rattle.tox_defs.specs.declared.toxic.Toxic.TheVariants.{Latency};

    ghost is_default = { λ placed. placed ≡ record { place = 0; toxic = Latency 0 0 0 0 } };

    /// A latency of zero at place 0.
    fn default() -> Self {
        Placed {
            place: 0,
            toxic: Toxic::Latency {
                latency: 0,
                jitter: 0,
                until: 0,
                from: 0,
            },
        }
    }
}

impl Chain {
    /// The toxics that a link with these words meets, in order.
    pub fn applied(&self, words: &Words) -> ArrayVec<Placed, MAX_TOXICS>
        ensures value { result.items ≡ applied self.now words.now }
        ensures placed { All (IsPlaced self.now.lanes) result.items }
        ensures chain { IsChain self.now }
    {
        let drawing = Drawing::new(self.lanes(), words);
        let mut met = ArrayVec::new();
        for (place, entry) in self.entries().iter().enumerate() {
            if entry.is_applied(place, &drawing) {
                met.push(Placed {
                    place,
                    toxic: entry.toxic,
                });
            }
        }
        met
    }
}
