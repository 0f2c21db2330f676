//! Versions of scripts.

/// The version of a script. Version 2 chooses the lanes of its chains, and may give a toxicity as a decimal text.
#[derive(Clone, Copy, Debug, PartialEq, Eq)]
pub enum Version {
    One,
    Two,
}
