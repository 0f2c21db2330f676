//! How a connect stands that doesn't wait.
use std::io::ErrorKind;
use std::net::TcpStream;

/// How a connect stands that was begun without waiting.
#[derive(Clone, Copy, Debug, PartialEq, Eq)]
pub enum Connection {
    Coming,
    There,
    /// It has finished, and the peer has reset the connection since.
    WasReset,
    /// It has failed, for this reason.
    Refused(ErrorKind),
}

/// How a connect stands that was begun without waiting. One that has finished has reached its peer, whatever came after it. The
/// system forgets a reset that is reported here: the socket reads as ended from then on.
pub fn connection_of(socket: &TcpStream) -> Connection {
    match socket.peer_addr() {
        Ok(_) => return Connection::There,
        Err(error) if error.kind() == ErrorKind::NotConnected => {}
        Err(error) => return Connection::Refused(error.kind()),
    }
    match socket.take_error() {
        Ok(None) => Connection::Coming,
        // A connect that is refused fails otherwise: these come only once a connection was there.
        Ok(Some(error))
            if matches!(
                error.kind(),
                ErrorKind::ConnectionReset | ErrorKind::BrokenPipe
            ) => Connection::WasReset,
        Ok(Some(error)) | Err(error) => Connection::Refused(error.kind()),
    }
}
