//! The faults by their codes, as docs/FAULTS.md has them.
mod of_files;
mod of_runs;

pub use of_files::{
    C0, C1, C2, C3, C4, C5, C6, C7, C8, M1, P0, P1, P2, P3, P4, P5, P6, P7, P8, P9, S0, S1, S2, S3,
    S4, S5, S6, S7, S8, S9,
};
pub use of_runs::{
    A1, A2, A3, A4, F0, F1, G1, G2, G3, L0, L1, L2, L3, L4, Q1, Q2, V1, W0, W1, W2, W3,
};
use std::fmt;

/// A fault as the help has it. Printed, it is a line of `toxi help faults`.
#[derive(Clone, Copy, Debug)]
pub struct FaultForm {
    pub code: &'static str,
    pub name: &'static str,
    /// What stands behind the name. Empty: nothing does.
    pub place: &'static str,
    pub means: &'static str,
    /// What to do.
    pub advice: &'static str,
}

impl fmt::Display for FaultForm {
    fn fmt<W: fmt::Write>(&self, f: &mut fmt::Formatter<W>) -> fmt::Result {
        let (code, name) = (self.code, self.name);
        write!(f, "{code} {name}")?;
        if !self.place.is_empty() {
            let place = self.place;
            write!(f, " <{place}>")?;
        }
        let (means, advice) = (self.means, self.advice);
        write!(f, ": {means}; {advice}")
    }
}

/// The faults of all codes, in their order.
pub const FAULTS: [&FaultForm; 51] = [
    &A1, &A2, &A3, &A4, &C0, &C1, &C2, &C3, &C4, &C5, &C6, &C7, &C8, &F0, &F1, &G1, &G2, &G3, &L0,
    &L1, &L2, &L3, &L4, &M1, &P0, &P1, &P2, &P3, &P4, &P5, &P6, &P7, &P8, &P9, &Q1, &Q2, &S0, &S1,
    &S2, &S3, &S4, &S5, &S6, &S7, &S8, &S9, &V1, &W0, &W1, &W2, &W3,
];

/// The fault of a code, in capital letters or not.
pub fn fault_of(code: &str) -> Option<&'static FaultForm> {
    for form in FAULTS {
        if form.code.eq_ignore_ascii_case(code) {
            return Some(form);
        }
    }
    None
}
