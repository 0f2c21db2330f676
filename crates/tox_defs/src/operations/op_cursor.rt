//! One operation of a plan at work on its present chunk.
ghost use Rattle.std.specs.Prelude.{◌≡◌, ◌<◌, None, false};
ghost use Rattle.tox_words.specs.Draw.{draws_of};
ghost use Rattle.tox_defs.specs.operations.Op.{is_mute};
ghost use Rattle.tox_defs.specs.operations.OpCursor.{IsSoundCursor, MatchEmission, first_cursor};

use crate::operations::look::Look;
use crate::operations::op::Op;
use crate::operations::state::State;
use tox_time::{Ending, Micros, Slice, Span};
use tox_words::Drawing;

/// An operation at work: its state, where its present chunk stops and that chunk's instant, and the ending that
/// it found, if any. A last piece may still leave before that ending.
#[derive(Clone, Copy, Debug, Default, PartialEq, Eq)]
pub struct OpCursor {
    pub op: Op,
    pub state: State,
    pub stop: u64,
    pub instant: Micros,
    pub ending: Option<Ending>,
}

/// What an operation gives next for its present chunk.
#[derive(Clone, Copy, Debug, PartialEq, Eq)]
pub enum Emission {
    /// The next piece.
    Piece(Slice),
    /// The ending. No piece is left before it.
    End(Ending),
}

impl OpCursor {
    /// The cursor of an operation before its first item.
    pub(crate) fn new(op: &Op) -> OpCursor
        ensures { result ≡ first_cursor op.now }
    {
        OpCursor {
            op: *op,
            ..OpCursor::default()
        }
    }

    /// The next piece of the present chunk, whose unread bytes are `start..stop`, or the ending if no piece comes
    /// before it. A found ending is kept in `ending`.
    #[inline(always)]
    pub fn advance(&mut self, start: u64, drawing: &Drawing<'_>) -> Emission
        requires some { start < self.old.stop }
        requires heard { is_mute self.old.op ≡ false }
        requires open { self.old.ending ≡ None }
        requires sound { IsSoundCursor start self.old }
        ensures { MatchEmission (draws_of drawing.now) start self.old self.new result }
    {
        let rest = Slice {
            span: Span {
                start,
                stop: self.stop,
            },
            instant: self.instant,
        };
        match &self.op.look(&self.state, &rest, drawing) {
            Look::Piece(piece) => {
                self.state.add_piece_of(self.stop, piece);
                Emission::Piece(*piece)
            }
            Look::LastPiece(piece, ending) => {
                self.state.add_piece(piece);
                self.state.add_chunk();
                self.state.add_ending(ending);
                self.ending = Some(*ending);
                Emission::Piece(*piece)
            }
            Look::Ended(ending) => {
                self.state.add_chunk();
                self.state.add_ending(ending);
                self.ending = Some(*ending);
                Emission::End(*ending)
            }
            Look::Uncounted(piece) => {
                self.state.add_uncounted(piece);
                Emission::Piece(*piece)
            }
        }
    }
}
