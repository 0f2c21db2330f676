//! How many bytes of all logs wait for their files.
ghost use Rattle.std.specs.Prelude.{◌≡◌, ◌+◌, ◌-◌, ◌<◌, ◌≤◌, ◌^◌, IfSome, max, min};

use std::sync::Wait;
use std::sync::atomic::{AtomicBool, AtomicIn, Ordering, Rule};

/// How many bytes of all logs may wait for their files.
const MAX_WAITING_IN_ALL: u64 = 67_108_864;

/// From how many bytes of all logs on they go to their files at once, and none are counted ahead.
const MANY_IN_ALL: u64 = 16_777_216;

/// What is true of the number of bytes that wait.
struct WithinLimit;

impl Rule for WithinLimit {
    ghost invariant = { λ bytes. bytes ≤ 67108864 };
}

/// How many bytes of all logs wait for their files.
#[derive(Drop)]
pub(crate) struct WaitingBytes {
    count: AtomicIn<WithinLimit>,
    /// Whether those of a log must go to its file at once.
    urgent: AtomicBool,
}

/// A log's part of the count. It can't be copied, and isn't dropped: what was counted goes back once.
pub(crate) struct Share {
    bytes: u64,
}

impl Share {
    /// No bytes.
    pub(crate) fn none() -> Share
        ensures { result.bytes ≡ 0 }
    {
        Share { bytes: 0 }
    }

    /// How many bytes are counted.
    pub(crate) fn bytes(&self) -> u64
        ensures { result ≡ self.now.bytes }
    {
        self.bytes
    }

    /// Adds those of another part.
    pub(crate) fn join(&mut self, other: Share)
        requires { self.old.bytes + other.bytes < 2 ^ 64 }
        ensures { self.new.bytes ≡ self.old.bytes + other.bytes }
    {
        let Share { bytes } = other;
        self.bytes += bytes;
    }

    /// Keeps so many bytes at most. The part of the others.
    pub(crate) fn split(&mut self, kept: u64) -> Share
        ensures parts { self.new.bytes + result.bytes ≡ self.old.bytes }
        ensures kept { self.new.bytes ≡ min self.old.bytes kept }
    {
        let rest = self.bytes.saturating_sub(kept);
        self.bytes -= rest;
        Share { bytes: rest }
    }

    /// Leaves the bytes counted.
    pub(crate) fn lose(self) {
        let Share { bytes: _ } = self;
    }
}

impl WaitingBytes {
    /// None wait.
    pub(crate) fn new() -> WaitingBytes {
        WaitingBytes {
            count: AtomicIn::new(0),
            urgent: AtomicBool::new(false),
        }
    }

    /// Counts so many more bytes, or `ahead` if that is more and few wait in all. None if not even `bytes` may wait.
    pub(crate) fn reserve<R: Wait>(&self, rt: &R, bytes: u64, ahead: u64) -> Option<Share>
        ensures least { IfSome result (λ share. bytes ≤ share.bytes) }
        ensures most { IfSome result (λ share. share.bytes ≤ max bytes ahead) }
        ensures few { IfSome result (λ share. share.bytes ≤ 67108864) }
    {
        for _ in rt.forever() {
            let count = self.count.load(Ordering::SeqCst);
            if bytes > MAX_WAITING_IN_ALL - count {
                return None;
            }
            let more = bytes.max(ahead.min(MANY_IN_ALL.saturating_sub(count)));
            match self.add(count, more) {
                Some(share) => return Some(share),
                None => continue,
            }
        }
        unreachable!()
    }

    /// Those of a share have left.
    pub(crate) fn remove<R: Wait>(&self, rt: &R, share: Share) {
        let Share { bytes } = share;
        for _ in rt.forever() {
            let count = self.count.load(Ordering::SeqCst);
            if self.set(count, after_leaving(count, bytes)) {
                return;
            }
        }
        unreachable!()
    }

    /// Those of a log must go to its file at once.
    pub(crate) fn set_urgent(&self) {
        self.urgent.store(true, Ordering::SeqCst);
    }

    /// The logs that wait go to their files now.
    pub(crate) fn clear_urgent(&self) {
        self.urgent.store(false, Ordering::SeqCst);
    }

    /// Whether those of a log must go to its file at once, or there are many in all.
    pub(crate) fn is_urgent(&self) -> bool {
        self.urgent.load(Ordering::SeqCst) || self.count.load(Ordering::SeqCst) >= MANY_IN_ALL
    }

    /// Adds so many bytes to the count, if it is still the old one: their part of it.
    fn add(&self, old: u64, bytes: u64) -> Option<Share>
        requires { old + bytes ≤ 67108864 }
        ensures { IfSome result (λ share. share.bytes ≡ bytes) }
    {
        if !self.set(old, after_coming(old, bytes)) {
            return None;
        }
        Some(Share { bytes })
    }

    /// Writes a count, if it is still the old one.
    fn set(&self, old: u64, new: u64) -> bool
        requires { new ≤ 67108864 }
    {
        self.count
            .compare_exchange(old, new, Ordering::SeqCst, Ordering::SeqCst)
            .is_ok()
    }
}

/// The count after so many bytes came.
fn after_coming(count: u64, bytes: u64) -> u64
    requires { count + bytes ≤ 67108864 }
    ensures { result ≡ count + bytes }
{
    count + bytes
}

/// The count after so many bytes have left.
fn after_leaving(count: u64, bytes: u64) -> u64
    ensures { result ≡ count - bytes }
{
    count.saturating_sub(bytes)
}
