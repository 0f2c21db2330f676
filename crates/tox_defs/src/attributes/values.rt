//! Values of attributes.
ghost use Rattle.std.specs.Prelude.{◌≡◌, ◌≤◌, length, slice_index};
ghost use Rattle.tox_defs.specs.toxics.Ranges.{narrowed};

use arrayvec::ArrayVec;

/// The most attributes of a toxic.
pub const MAX_ATTRIBUTES: usize = 5;

/// The value at a place, and 0 past the last one.
pub(crate) fn value(values: &[u64], place: usize) -> u64
    ensures { result ≡ slice_index values.now place }
{
    values.get(place).copied().unwrap_or(0)
}

/// The value at a place, or the greatest that fits where it is larger.
pub(crate) fn saturated(values: &[u64], place: usize) -> u32
    ensures { result ≡ narrowed (slice_index values.now place) }
{
    value(values, place).min(u64::from(u32::MAX)) as u32
}

/// A list of these values.
pub(crate) fn listed(values: &[u64]) -> ArrayVec<u64, MAX_ATTRIBUTES>
    requires { length values.now ≤ 5 }
    ensures { result.items ≡ values.now }
{
    let mut list = ArrayVec::new();
    let _ = list.try_extend_from_slice(values);
    list
}
