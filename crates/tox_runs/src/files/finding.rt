//! Finding a proxy by its name.
ghost use Rattle.std.specs.Prelude.{◌≡◌, option_map};
ghost use Rattle.std.specs.List.{find};
ghost use Rattle.tox_config.specs.Populate.{is_named};

use tox_config::ProxyDef;

/// The proxy of a name.
pub fn find_proxy<'a>(proxies: &'a [ProxyDef], name: &str) -> Option<&'a ProxyDef>
    ensures { option_map (λ proxy. proxy.now) result ≡ find (is_named name.now) proxies.now }
{
    proxies.iter().find(|proxy| proxy.name.as_str() == name)
}
