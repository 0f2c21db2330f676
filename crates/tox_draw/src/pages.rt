//! The page of a run: what its logs are, in one HTML text with their pictures.

mod cells;
mod conversations;
mod end_words;
mod escaping;
mod fault;
mod figure;
mod front;
mod judging;
mod kind;
mod link_logs;
mod links;
mod log_store;
mod millis;
mod ordering;
mod outcome;
mod page;
mod report;
mod row;
mod section;
mod stream_end;
mod stream_row;
mod style;
mod table;
mod totals;

pub use fault::PageFault;
pub use log_store::LogStore;
pub use report::Report;
