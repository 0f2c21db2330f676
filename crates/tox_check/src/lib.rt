//! What the connections of a proxy will meet (`forecast`), and what of a setup can't be meant: rules that no connection meets, or not all of
//! theirs, toxics that are never or seldom applied or change nothing, and addresses with a scheme or that are a proxy's own.
#![tactic(auto)]

mod addresses;
mod check;
mod fault;
mod file_lines;
mod forecast;
mod idleness;
mod listed;
mod proxies;
mod request;
mod rule_coverage;
mod rule_runs;
mod rule_warnings;
mod run;
mod tree;
mod trees;
mod warning;

pub use check::print_check;
pub use fault::CheckFault;
pub use forecast::{ForecastRequest, Question, print_forecast};
pub use idleness::{Idleness, idleness_at};
pub use request::CheckRequest;
