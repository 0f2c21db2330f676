//! Looking a name up within a time. The system's look-up has no limit, so a thread of its own makes it. One that takes longer is left to
//! itself.
use crate::runtime::ServeRuntime;
use std::alloc::{AllocError, Global};
use std::io::ErrorKind;
use std::net::{Net, SocketAddr, ToSocketAddrs};
use std::sync::{Arc, Condvar, Mutex, Wait};
use std::thread;
use std::time::{Clock, Duration};

/// Why a name isn't looked up.
#[derive(Clone, Copy, PartialEq, Eq)]
pub(crate) enum LookUpFault {
    OutOfMemory,
    /// The thread was refused.
    SpawnRefused,
}

/// The addresses of a name. None where it isn't found.
type Found = Result<Vec<SocketAddr>, LookUpFault>;

/// A look-up, which its thread shares with the one that waits for it.
#[derive(Drop)]
struct LookUp {
    name: String,
    /// What came of it, once it has ended.
    found: Mutex<Option<Found>>,
    ended: Condvar,
}

impl LookUp {
    /// A look-up that hasn't begun, for each of the two threads.
    fn shared(
        alloc: Global,
        name: &str,
    ) -> Result<(Arc<LookUp, Global>, Arc<LookUp, Global>), AllocError> {
        let look_up = LookUp {
            name: name.to_string(alloc)?,
            found: Mutex::new(None),
            ended: Condvar::new(),
        };
        let look_up = Arc::new(alloc, look_up)?;
        let shared = look_up.clone()?;
        Ok((look_up, shared))
    }

    /// Looks the name up.
    fn make<R: Net + Wait>(&self, rt: &R, alloc: Global) {
        let found = addresses_of(rt, alloc, self.name.as_str());
        *self.found.lock(rt) = Some(found);
        self.ended.notify_all();
    }

    /// What came of it. No address where it takes longer than so long.
    fn wait<R: Wait + Clock>(&self, rt: &R, alloc: Global, limit: Duration) -> Found {
        let found = self.found.lock(rt);
        let (mut found, _) = self
            .ended
            .wait_timeout_while(rt, found, limit, |found| found.is_none());
        match found.take() {
            Some(found) => found,
            None => Ok(Vec::new(alloc)),
        }
    }
}

/// The addresses of a name, which may take as long as the system likes.
fn addresses_of<R: Net>(rt: &R, alloc: Global, name: &str) -> Found {
    match name.to_socket_addrs(rt) {
        Ok(found) => match found.collect(alloc) {
            Ok(addresses) => Ok(addresses),
            Err(_) => Err(LookUpFault::OutOfMemory),
        },
        Err(error) if error.kind() == ErrorKind::OutOfMemory => Err(LookUpFault::OutOfMemory),
        Err(_) => Ok(Vec::new(alloc)),
    }
}

/// The addresses of a name, none where they aren't found within a time. A number is read at once, without a thread.
pub(crate) fn look_up_within<R: ServeRuntime>(
    rt: &R,
    alloc: Global,
    name: &str,
    limit: Duration,
) -> Result<Vec<SocketAddr>, LookUpFault> {
    if name.parse::<SocketAddr>().is_ok() {
        return addresses_of(rt, alloc, name);
    }
    let Ok((look_up, shared)) = LookUp::shared(alloc, name) else {
        return Err(LookUpFault::OutOfMemory);
    };
    let there = *rt;
    if thread::spawn(rt, move || shared.make(&there, alloc)).is_err() {
        return Err(LookUpFault::SpawnRefused);
    }
    look_up.wait(rt, alloc, limit)
}
