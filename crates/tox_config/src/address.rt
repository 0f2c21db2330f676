//! Addresses: a host, which may be empty, a colon and a port.
ghost use Rattle.std.specs.Prelude.{◌≡◌};
ghost use Rattle.std.specs.Char.{is_ascii_graphic};
ghost use Rattle.std.specs.List.{list_all};
ghost use Rattle.tox_config.specs.Address.{ends_in_port, is_address, is_port};

use tox_time::{MAX_TEXT_LEN, is_sized, parse_decimal};

/// The most digits of a port.
const MAX_PORT_LEN: usize = 5;

/// Whether a text is an address: 1 to 255 visible bytes, with a port behind the last colon.
pub fn is_address(text: &str) -> bool
    ensures { result ≡ is_address text.now }
{
    is_sized(text, MAX_TEXT_LEN) && all_visible(text) && ends_in_port(text)
}

/// Whether each byte is from 0x21 to 0x7E.
fn all_visible(text: &str) -> bool
    ensures { result ≡ list_all is_ascii_graphic text.now }
{
    text.bytes().all(|byte| byte.is_ascii_graphic())
}

/// Whether a port stands behind the last colon.
fn ends_in_port(text: &str) -> bool
    ensures { result ≡ ends_in_port text.now }
{
    match text.rsplit_once(':') {
        Some((_host, port)) => is_port(port),
        None => false,
    }
}

/// Whether a text is 1 to 5 decimal digits of value at most 65535.
fn is_port(text: &str) -> bool
    ensures { result ≡ is_port text.now }
{
    parse_decimal(text, MAX_PORT_LEN, u64::from(u16::MAX)).is_some()
}
