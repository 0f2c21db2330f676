//! Tests of compiled plans: runners, lent slices and `deliver`, beside the stages one after another.
mod cases;
pub mod demands;
mod later_cases;
mod orders;
pub mod outcomes;
mod plans;
mod random;
mod readme;
mod runners;
pub mod settings;
mod slices;
pub mod staged;
mod windows;
mod worked;
