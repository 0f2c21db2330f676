//! A slice lent from a piece.
use tox_time::Micros;

/// Bytes of one piece, from position `start` on, that leave the link at `instant`.
#[derive(Clone, Copy, Debug)]
pub struct Lent<'a> {
    pub start: u64,
    pub instant: Micros,
    pub bytes: &'a [u8],
}
