//! A member of a populate file that isn't read.
use std::marker::Model;

/// A member that isn't read, and the name of its proxy. Contracts see its texts as bytes.
#[derive(Debug, Drop)]
pub struct UnreadMember {
    pub proxy: String,
    pub key: String,
}

impl Model for UnreadMember {
    ghost use Rattle.std.specs.Prelude.{string_bytes};
    ghost use Rattle.tox_config.specs.Remarks.{Unread};

    ghost Value = { Unread };

    ghost view = { λ member. record {
      proxy = string_bytes member.proxy;
      key = string_bytes member.key;
    } };
}
