//! Lines on their way to the output, and what is told beside them: each by a thread of its own, so that an output that nobody reads holds
//! up no link and not the other output.
mod breaks;
mod broken_text;
mod channel;
mod filled_text;
mod fills;
mod form;
mod json_lines;
mod notice_channel;
mod notices;
mod open_line;
mod queue;
mod sent_lines;
mod serve_lines;
mod text;
mod writer;

pub use broken_text::BrokenText;
pub(crate) use channel::LineChannel;
pub use filled_text::FilledText;
pub use form::LineForm;
pub use notice_channel::NoticeChannel;
pub(crate) use notices::tell_notices;
pub use notices::{NoNotices, Notices, tell_waiting};
pub(crate) use queue::LineQueue;
pub(crate) use sent_lines::{print_link, print_listening, print_open, print_total};
pub(crate) use text::LineText;
pub(crate) use writer::write_lines;
