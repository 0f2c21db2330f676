//! The connections that a rule is for.

/// The proxy of a rule, and its connections: those from `first` to `last`, or all from `first` on.
#[derive(Clone, Copy, Debug)]
pub struct Scope<'a> {
    pub proxy: &'a str,
    pub first: u64,
    pub last: Option<u64>,
}
