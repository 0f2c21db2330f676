//! The log of a link's stream: written to files while links are served, printed, read back, and judged.
#![tactic(auto)]

mod event_line;
mod event_text;
mod fault;
mod files;
mod header_text;
mod heading;
mod heard_text;
mod judge;
mod judged_json;
mod judged_text;
mod last_line;
mod lateness;
mod line_reader;
mod line_text;
mod log_bytes;
mod meant_text;
mod noted_lines;
mod numbers;
mod open_log;
mod order;
mod replay;

pub use event_line::{LogLine, read_line};
pub use event_text::print_event;
pub use fault::{LogFault, ReplayFault};
pub use files::{LogFiles, LogLimits, NoLogs, RunLogs, StreamNotes, write_logs};
pub use header_text::{LoggedLink, print_header};
pub use heading::Heading;
pub use heard_text::{HeardFault, print_heard, print_words};
pub use judged_json::{print_judged_json, write_judged_json};
pub use judged_text::{print_judged, write_judged};
pub use last_line::{BreakCause, LastLine, print_last};
pub use lateness::Percentiles;
pub use log_bytes::LogBytes;
pub use meant_text::print_meant;
pub use noted_lines::noted_lines_are_a_log;
pub use open_log::OpenLog;
pub use replay::{JudgedLog, Verdict, judge_log};
