//! Where toxics of a rule stand.
ghost use Rattle.std.specs.Prelude.{◌≡◌, ◌+◌, ◌<◌, ◌^◌};

use tox_time::Stream;

/// A toxic's number in its rule, from 1, and the next place of each stream.
#[derive(Clone, Copy, Debug)]
pub struct Places {
    pub number: usize,
    pub upstream: usize,
    pub downstream: usize,
}

impl Places {
    ghost use Rattle.std.specs.Prelude.{◌≤◌};
    ghost use Rattle.tox_check.specs.forecast.Totals.{place_on, places_after};

    /// The next place of a stream.
    pub fn on(self, stream: Stream) -> usize
        ensures { result ≡ place_on stream self }
    {
        match stream {
            Stream::Upstream => self.upstream,
            Stream::Downstream => self.downstream,
        }
    }

    /// The places behind a toxic on a stream.
    pub fn after(self, stream: Stream) -> Places
        requires number { self.number + 1 < 2 ^ 64 }
        requires upstream { self.upstream ≤ self.number }
        requires downstream { self.downstream ≤ self.number }
        ensures { result ≡ places_after stream self }
    {
        match stream {
            Stream::Upstream => Places {
                number: self.number + 1,
                upstream: self.upstream + 1,
                downstream: self.downstream,
            },
            Stream::Downstream => Places {
                number: self.number + 1,
                upstream: self.upstream,
                downstream: self.downstream + 1,
            },
        }
    }
}
