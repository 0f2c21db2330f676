//! The logs of served links: what directions note, and the thread that brings it to files.

mod channel;
mod entry;
mod entry_text;
mod file_name;
mod log_files;
mod log_state;
mod log_text;
mod log_writer;
mod run_logs;
mod stream_log;
mod stream_notes;
mod waiting_bytes;
mod whole_lines;

pub use log_files::{LogFiles, NoLogs};
pub use log_writer::write_logs;
pub use run_logs::{LogLimits, RunLogs};
pub use stream_notes::StreamNotes;
