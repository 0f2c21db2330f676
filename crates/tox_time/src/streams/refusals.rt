//! Why a piece or a source's end is refused: for all who are told what arrives.
ghost use Rattle.std.specs.Prelude.{◌≡◌, ◌+◌, ◌<◌, ◌≤◌, ◌^◌, true, false, None, Some, IfErr, IfOk, OnOk};
ghost use Rattle.tox_time.specs.Time.{IsInstant};
ghost use Rattle.tox_time.specs.streams.Arrivals.{end_fault, piece_fault};

use crate::micros::Micros;
use crate::streams::arrivals::ArrivalFault;
use crate::streams::position::StreamPosition;
use crate::streams::span::MAX_BYTES;

impl StreamPosition {
    /// The position behind a piece of `len` bytes that arrives at `instant`.
    ///
    /// Refuses, in this order, an instant below the latest one, an empty piece, more than 2^40 bytes in all, and a piece once the
    /// stream is over.
    #[inline]
    pub fn with_piece(&self, len: u64, instant: Micros) -> Result<StreamPosition, ArrivalFault>
        ensures behind { IfOk result (λ next.
            next ≡ record self.now { position = self.now.position + len; latest = instant }) }
        ensures accepted { OnOk result
            (piece_fault self.now.position self.now.latest self.now.ended len instant ≡ None) }
        ensures bounds { OnOk result
            ((self.now.latest ≤ instant) × (0 < len) × (self.now.position + len ≤ 2 ^ 40)
            × (self.now.ended ≡ false)) }
        ensures timed { OnOk result (IsInstant instant) }
        ensures fault { IfErr result (λ fault.
            piece_fault self.now.position self.now.latest self.now.ended len instant ≡ Some fault) }
    {
        if instant < self.latest {
            Err(ArrivalFault::TimeBack)
        } else if len == 0 {
            Err(ArrivalFault::EmptyPiece)
        } else if len > MAX_BYTES.saturating_sub(self.position) {
            Err(ArrivalFault::TooManyBytes)
        } else if self.ended {
            Err(ArrivalFault::AfterEnd)
        } else {
            Ok(StreamPosition {
                position: self.position + len,
                latest: self.latest.later(instant),
                ended: false,
            })
        }
    }

    /// The position behind the source's end at `instant`.
    ///
    /// Refuses, in this order, an instant below the latest one, and an end once the stream is over.
    #[inline]
    pub fn with_end(&self, instant: Micros) -> Result<StreamPosition, ArrivalFault>
        ensures behind { IfOk result (λ next.
            next ≡ record self.now { latest = instant; ended = true }) }
        ensures accepted { OnOk result (end_fault self.now.latest self.now.ended instant ≡ None) }
        ensures bounds { OnOk result ((self.now.latest ≤ instant) × (self.now.ended ≡ false)) }
        ensures timed { OnOk result (IsInstant instant) }
        ensures fault { IfErr result (λ fault.
            end_fault self.now.latest self.now.ended instant ≡ Some fault) }
    {
        if instant < self.latest {
            Err(ArrivalFault::TimeBack)
        } else if self.ended {
            Err(ArrivalFault::AfterEnd)
        } else {
            Ok(StreamPosition {
                position: self.position,
                latest: self.latest.later(instant),
                ended: true,
            })
        }
    }
}
