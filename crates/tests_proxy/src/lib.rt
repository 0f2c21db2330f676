//! Tests of the calls of tox_proxy: texts, served links over sockets of this machine, and each request for memory refused.
#![tactic(auto)]

#[cfg(test)]
mod comparing;
#[cfg(test)]
mod files;
#[cfg(test)]
mod memory;
#[cfg(test)]
mod serve;
#[cfg(test)]
mod setups;
#[cfg(test)]
mod texts;
