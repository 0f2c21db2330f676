//! A name that more than one object of a populate file has.
use std::marker::Model;

/// A name, and how many objects have it: the last one counts, in the place of the first. Contracts see the name as bytes.
#[derive(Debug, Drop)]
pub struct RepeatedName {
    pub name: String,
    pub count: usize,
}

impl Model for RepeatedName {
    ghost use Rattle.std.specs.Prelude.{string_bytes};
    ghost use Rattle.tox_config.specs.Remarks.{Repeated};

    ghost Value = { Repeated };

    ghost view = { λ repeated. record {
      name = string_bytes repeated.name;
      count = repeated.count;
    } };
}
