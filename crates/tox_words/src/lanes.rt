//! Lanes, which take turns at a table of words.
ghost use Rattle.std.specs.Prelude.{◌≡◌};
ghost use Rattle.tox_words.specs.Draw.{lane_count};

/// The most lanes that share a table.
pub const MAX_LANES: usize = 32;

/// How many lanes share a table.
#[derive(Clone, Copy, Debug, Default, PartialEq, Eq)]
pub enum Lanes {
    #[default]
    Sixteen,
    ThirtyTwo,
}

impl Lanes {
    /// The number of lanes.
    pub fn count(self) -> usize
        ensures { result ≡ lane_count self }
    {
        match self {
            Lanes::Sixteen => 16,
            Lanes::ThirtyTwo => MAX_LANES,
        }
    }
}
