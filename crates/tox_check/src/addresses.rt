//! Addresses that can't be meant: with a scheme, or a proxy's own as its upstream.
ghost use Rattle.std.specs.Prelude.{◌≡◌};
ghost use Rattle.std.specs.List.{after_first, before_first};
ghost use Rattle.tox_time.specs.Text.{is_colon};
ghost use Rattle.tox_check.specs.ProxyLines.{has_scheme, is_one_port, is_own_address, is_this_machine};

/// Whether two slashes stand behind the first colon of an address, as in `http://localhost:80`.
pub(crate) fn has_scheme(address: &str) -> bool
    ensures { result ≡ has_scheme address.now }
{
    let (_, rest) = split_at_colon(address);
    rest.starts_with("//")
}

/// Whether an upstream is where its proxy listens: the addresses are written alike, or have one port of this machine.
pub(crate) fn is_own_address(listen: &str, upstream: &str) -> bool
    ensures { result ≡ is_own_address listen.now upstream.now }
{
    listen == upstream || is_one_port(listen, upstream)
}

/// Whether two addresses have one port of this machine.
fn is_one_port(address: &str, other: &str) -> bool
    ensures { result ≡ is_one_port address.now other.now }
{
    let (host, port) = split_at_colon(address);
    let (other_host, other_port) = split_at_colon(other);
    is_this_machine(host) && is_this_machine(other_host) && port == other_port
}

/// What stands before the first colon, and what behind it.
fn split_at_colon(address: &str) -> (&str, &str)
    ensures before { result.0.now ≡ before_first is_colon address.now }
    ensures behind { result.1.now ≡ after_first is_colon address.now }
{
    match address.split_once(':') {
        Some(parts) => parts,
        None => (address, ""),
    }
}

/// Whether a host is this machine.
fn is_this_machine(host: &str) -> bool
    ensures { result ≡ is_this_machine host.now }
{
    host.is_empty() || host == "localhost" || host == "127.0.0.1" || host == "0.0.0.0"
}
