//! One link: what its streams meet, its upstream, and how it ended.
pub(crate) mod break_reason;
pub(crate) mod course;
pub(crate) mod end;
pub(crate) mod logs;
pub(crate) mod look_up;
pub(crate) mod opening;
pub(crate) mod reached;
pub(crate) mod source_notes;
pub(crate) mod stream_end;
