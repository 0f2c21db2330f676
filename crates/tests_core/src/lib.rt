//! Tests of what carries bytes: stages and their network, compiled plans, and live links.
#![tactic(auto)]

#[cfg(test)]
mod comparing;
#[cfg(test)]
mod end;
#[cfg(test)]
mod link;
#[cfg(test)]
mod network;
#[cfg(test)]
mod plan;
#[cfg(test)]
mod planning;
