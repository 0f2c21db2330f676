//! Scripts: which toxics each numbered connection of a proxy meets.
#![tactic(auto)]

mod ascending;
mod chains;
mod fault;
mod fields;
mod index;
mod migration;
mod rule;
mod scope;
mod script;
mod settings;
mod version;

pub use chains::Chains;
pub use chains::named_chain::NamedChain;
pub use fault::{Field, Location, ScriptFault};
pub use index::rule_index::RuleIndex;
pub use index::step::Step;
pub use migration::migrate;
pub use scope::Scope;
pub use script::{Script, read_script};
pub use version::Version;
