//! A descriptor in hand.
use libc::net as system;
use os::FromRawFd;
use std::io;
use std::os::fd::OwnedFd;

/// A descriptor that is taken so that another may have its place: dropping it makes room for one.
#[derive(Drop)]
pub struct SpareDescriptor {
    held: OwnedFd,
}

impl SpareDescriptor {
    /// A descriptor, if the process may have one more.
    pub fn open() -> io::Result<SpareDescriptor> {
        let fd = system::eventfd(0, system::EFD_CLOEXEC);
        if fd < 0 {
            return Err(io::Error::from_raw_os_error(os::errno()));
        }
        let held = unsafe { OwnedFd::from_raw_fd(fd) };
        Ok(SpareDescriptor { held })
    }
}
