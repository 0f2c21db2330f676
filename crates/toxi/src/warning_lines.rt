//! What `toxi check` says of what is served, on standard error.
use crate::notices::send_notice;
use std::io;
use std::io::Write;
use std::sync::Wait;
use tox_proxy::{NoticeChannel, Setup, print_check};
use tox_time::Real;

/// How many warnings are reported.
const MAX_WARNINGS: u64 = 20;

/// Sends the first warnings of what is set up, and how many more there are. What can't be sent is no reason not to serve.
pub fn send_warnings<R: AllocGlobal + Wait>(rt: &R, setup: &Setup, channel: &NoticeChannel) {
    let mut lines = WarningLines {
        rt,
        channel,
        line: Vec::new(rt.alloc()),
        reported: 0,
    };
    let checked = print_check(rt.alloc(), &mut Real::new(&mut lines), setup, false);
    if let Ok(count) = checked {
        lines.send_more(count.saturating_sub(MAX_WARNINGS));
    }
}

/// A writer of lines that sends the first ones.
#[derive(Drop)]
struct WarningLines<'a, R> {
    rt: &'a R,
    channel: &'a NoticeChannel,
    /// The line that is being written.
    line: Vec<u8>,
    /// How many lines were reported.
    reported: u64,
}

impl<'a, R: AllocGlobal + Wait> WarningLines<'a, R> {
    fn take(&mut self, byte: u8) -> io::Result<()> {
        if byte == b'\n' {
            self.send();
            Ok(())
        } else {
            Ok(self.line.push(byte)?)
        }
    }

    fn send(&mut self) {
        let rt = self.rt;
        if let Ok(line) = str::from_utf8(&self.line) {
            if let Ok(text) = format!(in rt.alloc(); "warning: {line}") {
                send_notice(rt, self.channel, &text);
            }
        }
        self.line.clear();
        self.reported = self.reported.saturating_add(1);
    }

    fn send_more(&self, count: u64) {
        if count > 0 {
            let rt = self.rt;
            if let Ok(text) = format!(in rt.alloc(); "warning: and {count} more") {
                send_notice(rt, self.channel, &text);
            }
        }
    }
}

impl<'a, R: AllocGlobal + Wait> Write for WarningLines<'a, R> {
    fn write(&mut self, buf: &[u8]) -> io::Result<usize> {
        for byte in buf {
            if self.reported < MAX_WARNINGS {
                self.take(*byte)?;
            }
        }
        Ok(buf.len())
    }

    fn flush(&mut self) -> io::Result<()> {
        Ok(())
    }
}
