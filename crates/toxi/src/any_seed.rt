//! A seed that nobody gave.
use std::fs;
use std::io::Read;
use std::rt::Files;
use std::time::{Clock, SystemTime};

/// The file that gives random bytes of the system.
const RANDOM: &str = "/dev/urandom";

/// A random seed. Where the system has no random bytes it is made of the time.
pub fn any_seed<R: Files + Clock>(rt: &R) -> u64 {
    random_seed(rt).or_else(|| seed_of_time(rt)).unwrap_or(0)
}

fn random_seed<R: Files>(rt: &R) -> Option<u64> {
    let mut bytes = [0; 8];
    let mut file = fs::open(rt, RANDOM).ok()?;
    file.read_exact(&mut bytes).ok()?;
    Some(u64::from_le_bytes(bytes))
}

fn seed_of_time<R: Clock>(rt: &R) -> Option<u64> {
    let now = SystemTime::now(rt).ok()?;
    let since = now.duration_since(SystemTime::UNIX_EPOCH).ok()?;
    u64::try_from(since.as_nanos()).ok()
}
