//! What an operation remembers of its stream.
ghost use Rattle.std.specs.Prelude.{◌≡◌, ◌+◌, ◌-◌, ◌<◌, ◌≤◌, ◌^◌};

use tox_time::{Ending, Micros, Slice};

/// What a toxic remembers of the items that it took and gave.
#[derive(Clone, Copy, Debug, Default, PartialEq, Eq)]
pub struct State {
    /// The instant of the last item that it gave, 0 at the start.
    pub previous: Micros,
    /// How many chunks it took. A chunk counts once its last piece is given.
    pub chunks: u64,
    /// How many pieces it gave.
    pub pieces: u64,
    /// How many bytes it gave.
    pub passed: u64,
    /// Whether it gave a final. From then on it takes items and gives none.
    pub done: bool,
}

impl State {
    ghost use Rattle.tox_defs.specs.stage.Reaction.{with_piece, with_chunk, with_ending};
    ghost use Rattle.tox_defs.specs.operations.Look.{after_piece_of};
    ghost use Rattle.tox_defs.specs.operations.During.{with_previous};

    /// Counts a given piece.
    pub(crate) fn add_piece(&mut self, piece: &Slice)
        requires pieces { self.old.pieces + 1 < 2 ^ 64 }
        requires bytes { self.old.passed + (piece.now.span.stop - piece.now.span.start) < 2 ^ 64 }
        requires order { piece.now.span.start ≤ piece.now.span.stop }
        ensures { self.new ≡ with_piece self.old piece.now }
    {
        self.previous = piece.instant;
        self.pieces += 1;
        self.passed += piece.span.stop - piece.span.start;
    }

    /// Counts a chunk.
    pub(crate) fn add_chunk(&mut self)
        requires { self.old.chunks + 1 < 2 ^ 64 }
        ensures { self.new ≡ with_chunk self.old }
    {
        self.chunks += 1;
    }

    /// Counts a given piece of a chunk that stops at `stop`, and the chunk with its last piece.
    pub(crate) fn add_piece_of(&mut self, stop: u64, piece: &Slice)
        requires chunks { self.old.chunks + 1 < 2 ^ 64 }
        requires pieces { self.old.pieces + 1 < 2 ^ 64 }
        requires bytes { self.old.passed + (piece.now.span.stop - piece.now.span.start) < 2 ^ 64 }
        requires order { piece.now.span.start ≤ piece.now.span.stop }
        ensures { self.new ≡ after_piece_of stop self.old piece.now }
    {
        self.add_piece(piece);
        if piece.span.stop == stop {
            self.add_chunk();
        }
    }

    /// Notes a given chunk that isn't counted.
    pub(crate) fn add_uncounted(&mut self, piece: &Slice)
        ensures { self.new ≡ with_previous self.old piece.now.instant }
    {
        self.previous = piece.instant;
    }

    /// Notes that the ending was given.
    pub(crate) fn add_ending(&mut self, ending: &Ending)
        ensures { self.new ≡ with_ending self.old ending.now }
    {
        if let Ending::Closed(instant) | Ending::Reset(instant) = ending {
            self.previous = *instant;
        }
        self.done = true;
    }
}
