//! A proxy of a populate file.
use std::marker::Model;

/// One proxy: its name, the addresses that it listens at and connects to, and whether it is enabled. Contracts see its texts as bytes.
#[derive(Debug, Drop)]
pub struct ProxyDef {
    /// 1 to 255 bytes.
    pub name: String,
    /// An address, `localhost:0` where the file gives none.
    pub listen: String,
    /// An address.
    pub upstream: String,
    pub enabled: bool,
}

impl Model for ProxyDef {
    ghost use Rattle.std.specs.Prelude.{string_bytes};
    ghost use Rattle.tox_config.specs.Proxy.{Proxy};

    ghost Value = { Proxy };

    ghost view = { λ def. record {
      name = string_bytes def.name;
      listen = string_bytes def.listen;
      upstream = string_bytes def.upstream;
      enabled = def.enabled;
    } };
}
