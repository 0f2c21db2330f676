//! How late the writes of a log were.
ghost use Rattle.std.specs.Prelude.{◌≡◌, ◌≢◌, ◌-◌, ◌<◌, ◌≤◌, ◌^◌, ◌++◌, ◌∷◌, [], ℕ, List, Some, false, true, length, slice_get, OnOk};
ghost use Rattle.tox_log.specs.Lateness.{HasRanks, IsLate, KeepsLate};

use std::alloc::{AllocError, Global};

/// How many values are kept one by one.
const MAX_EXACT: usize = 1_048_576;

/// Each power of two from 256 on has so many buckets of one width, and each number below a bucket of its own.
const BUCKETS: u64 = 128;

/// How many powers of two stand between 128 and 2^64.
const POWERS: u64 = 57;

/// How many buckets there are.
const BUCKET_COUNT: usize = ((POWERS + 1) * BUCKETS) as usize;

/// Microseconds of lateness, counted.
#[derive(Drop)]
pub(crate) struct Lateness {
    values: Vec<u64>,
    /// Past [`MAX_EXACT`] values: how many fall into each bucket.
    buckets: Vec<u64>,
    count: u64,
    max: u64,
}

/// The median, the 99th percentile and the maximum of some values.
#[derive(Clone, Copy, Debug, PartialEq, Eq)]
pub struct Percentiles {
    pub median: u64,
    pub p99: u64,
    pub max: u64,
    /// Whether the median and the 99th percentile are exact. Else each is at most 1 % too high.
    pub exact: bool,
}

impl Lateness {
    /// No value yet.
    pub(crate) fn new(alloc: Global) -> Lateness
        ensures { KeepsLate [] result }
    {
        Lateness {
            values: Vec::new(alloc),
            buckets: Vec::new(alloc),
            count: 0,
            max: 0,
        }
    }

    /// Counts one more value.
    pub(crate) fn add(&mut self, alloc: Global, value: u64) -> Result<(), AllocError>
        ensures { OnOk result ((values : List ℕ) → length values < 2 ^ 63
            → KeepsLate values self.old → KeepsLate (values ++ value ∷ []) self.new) }
    {
        self.keep(alloc, value)?;
        self.count = self.count.saturating_add(1);
        self.max = self.max.max(value);
        Ok(())
    }

    /// Keeps a value: itself, or past so many values its bucket.
    fn keep(&mut self, alloc: Global, value: u64) -> Result<(), AllocError>
        ensures one { OnOk result (self.old.buckets.items ≡ []
            → length self.old.values.items < 1048576 → (self.new.buckets.items ≡ [])
            × (self.new.values.items ≡ self.old.values.items ++ value ∷ [])) }
        ensures over { OnOk result (self.old.buckets.items ≡ []
            → 1048576 ≤ length self.old.values.items → self.new.buckets.items ≢ []) }
        ensures stays { OnOk result (self.old.buckets.items ≢ [] → self.new.buckets.items ≢ []) }
        ensures same { (self.new.count ≡ self.old.count) × (self.new.max ≡ self.old.max) }
    {
        if !self.buckets.is_empty() {
            count_in(&mut self.buckets, value);
            return Ok(());
        }
        if self.values.len() < MAX_EXACT {
            self.values.push(value)?;
            return Ok(());
        }
        self.go_over(alloc)?;
        count_in(&mut self.buckets, value);
        Ok(())
    }

    /// Goes over to buckets.
    fn go_over(&mut self, alloc: Global) -> Result<(), AllocError>
        ensures over { OnOk result (self.new.buckets.items ≢ []) }
        ensures same { (self.new.count ≡ self.old.count) × (self.new.max ≡ self.old.max) }
    {
        let mut buckets = vec![in alloc; 0; BUCKET_COUNT]?;
        for value in &self.values {
            count_in(&mut buckets, *value);
        }
        self.buckets = buckets;
        self.values = Vec::new(alloc);
        Ok(())
    }

    /// The percentiles, or None of no value.
    pub(crate) fn percentiles(&mut self) -> Option<Percentiles>
        ensures { (values : List ℕ) → KeepsLate values self.old → IsLate values result }
    {
        if self.count == 0 {
            return None;
        }
        if self.buckets.is_empty() {
            Some(self.exact())
        } else {
            Some(self.approximate())
        }
    }

    /// The percentiles of the values.
    fn exact(&mut self) -> Percentiles
        ensures max { (result.max ≡ self.old.max) × (result.exact ≡ true) }
        ensures ranks { (length self.old.values.items ≡ self.old.count) → 0 < self.old.count
            → HasRanks self.old.values.items self.new.values.items result.median result.p99 }
    {
        self.values.sort_unstable();
        Percentiles {
            median: self.nth(self.count.div_ceil(2)),
            p99: self.nth(self.count - self.count / 100),
            max: self.max,
            exact: true,
        }
    }

    /// The percentiles of the buckets.
    fn approximate(&self) -> Percentiles
        ensures { (result.max ≡ self.now.max) × (result.exact ≡ false) }
    {
        Percentiles {
            median: self.bucket_with(self.count.div_ceil(2)),
            p99: self.bucket_with(self.count - self.count / 100),
            max: self.max,
            exact: false,
        }
    }

    /// The value of a rank from 1 in the sorted list.
    fn nth(&self, rank: u64) -> u64
        ensures { 0 < rank → rank ≤ length self.now.values.items
            → slice_get self.now.values.items (rank - 1) ≡ Some result }
    {
        let index = rank.saturating_sub(1) as usize;
        self.values.get(index).copied().unwrap_or(self.max)
    }

    /// The greatest value that the bucket of a rank from 1 may have.
    fn bucket_with(&self, rank: u64) -> u64 {
        let mut below = 0_u64;
        for (bucket, count) in self.buckets.iter().enumerate() {
            below = below.saturating_add(*count);
            if below >= rank {
                return top_of(bucket as u64).min(self.max);
            }
        }
        self.max
    }
}

/// Counts a value in its bucket.
fn count_in(buckets: &mut [u64], value: u64) {
    let bucket = bucket_of(value);
    if bucket < buckets.len() {
        buckets[bucket] = buckets[bucket].saturating_add(1);
    }
}

/// The bucket of a value: its own below 256, and above by its highest eight bits.
fn bucket_of(value: u64) -> usize {
    let mut high = value;
    let mut power = 0;
    while high >= 2 * BUCKETS {
        high /= 2;
        power = (power + 1).min(POWERS);
    }
    (power * BUCKETS + high) as usize
}

/// The greatest value of a bucket.
fn top_of(bucket: u64) -> u64 {
    if bucket < 2 * BUCKETS {
        return bucket;
    }
    let power = (bucket / BUCKETS - 1).min(POWERS);
    let high = bucket % BUCKETS + BUCKETS;
    (high + 1).saturating_mul(1 << power).saturating_sub(1)
}
