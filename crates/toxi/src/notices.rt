//! What is told beside the lines of `serve`, on standard error, which may not be read.
use std::fmt::Display;
use std::sync::Wait;
use tox_proxy::{BrokenText, FilledText, NoticeChannel, Notices, Room, Stop};

/// The descriptor of standard error.
const ERRORS: i32 = 2;

/// Tells notices on standard error. It waits for room there, but once serving has ended only 400 milliseconds.
#[derive(Drop)]
pub struct PrintedNotices<'a, R> {
    rt: &'a R,
    room: Room<'a, R>,
    /// Requested once serving has ended.
    ended: &'a Stop,
}

impl<'a, R: Eprint + Wait> PrintedNotices<'a, R> {
    pub fn new(rt: &'a R, ended: &'a Stop) -> PrintedNotices<'a, R> {
        PrintedNotices {
            rt,
            room: Room::new(rt, ended, ERRORS),
            ended,
        }
    }

    /// Prints a line once there is room for it.
    fn tell<D: Display>(&self, line: &D) {
        if self.room.wait() {
            let rt = self.rt;
            let _ = eprintln!(rt; "{line}");
        }
    }

    /// Tells how many lines of an output were dropped.
    fn tell_gap(&self, lines: u64, output: &str) {
        let ending = if lines == 1 { "" } else { "s" };
        if self.room.wait() {
            let rt = self.rt;
            let _ = eprintln!(rt; "toxi: {lines} line{ending} dropped: {output} wasn't read");
        }
    }

    fn tell_each(&self, lines: &str) {
        for line in lines.lines() {
            self.tell(&line);
        }
    }
}

impl<'a, R: Eprint + Wait> Notices for PrintedNotices<'a, R> {
    fn lines(&self, lines: &[u8], dropped: u64) {
        if let Ok(lines) = str::from_utf8(lines) {
            self.tell_each(lines);
        }
        if dropped > 0 {
            self.tell_gap(dropped, "standard error");
        }
    }

    fn dropped(&self, lines: u64) {
        self.tell_gap(lines, "the output");
    }

    fn broken(&self, text: &BrokenText<'_>) {
        if self.room.wait() {
            let rt = self.rt;
            let _ = eprintln!(rt; "toxi: {text}");
        }
    }

    fn filled(&self, text: &FilledText<'_>) {
        if self.room.wait() {
            let rt = self.rt;
            let _ = eprintln!(rt; "toxi: {text}");
        }
    }

    fn ending(&self) {
        self.ended.request(self.rt);
    }
}

/// Sends a line to standard error: `toxi: ` and a text. Without memory for it nothing is sent.
pub fn send_notice<R: AllocGlobal + Wait, D: Display>(rt: &R, channel: &NoticeChannel, text: &D) {
    if let Ok(line) = format!(in rt.alloc(); "toxi: {text}\n") {
        channel.send(rt, line.as_bytes());
    }
}

/// Prints a line to standard error at once: `toxi: ` and a text. Where there is no room for 400 milliseconds it is dropped.
pub fn tell_soon<R: Eprint + Wait, D: Display>(rt: &R, text: &D) {
    let ended = Stop::new();
    ended.request(rt);
    if Room::new(rt, &ended, ERRORS).wait() {
        let _ = eprintln!(rt; "toxi: {text}");
    }
}
