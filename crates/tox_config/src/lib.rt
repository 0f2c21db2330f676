//! Populate files: the proxies that a JSON array of objects defines.
#![tactic(auto)]

mod address;
mod fault;
mod lent_proxy;
mod populate;
mod proxy;
mod remarks;
mod repeated_name;
mod unread_member;

pub use address::is_address;
pub use fault::ConfigFault;
pub use populate::read_populate;
pub use proxy::ProxyDef;
pub use remarks::{Remarks, read_remarks};
pub use repeated_name::RepeatedName;
pub use unread_member::UnreadMember;
