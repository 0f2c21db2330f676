//! The thread that writes the lines.
ghost use Rattle.std.specs.Prelude.{◌≡◌};
ghost use Rattle.tox_serve.specs.output.LineQueue.{no_lines};

use crate::output::channel::LineChannel;
use crate::output::notice_channel::NoticeChannel;
use crate::output::queue::LineQueue;
use std::io;
use std::io::Write;
use std::sync::{Mutex, Wait};

/// Writes the lines of a channel as they come, until no more come. Each gap is noted once the lines before it are written. What the
/// output doesn't take is dropped silently.
pub(crate) fn write_lines<R: Wait, W: Write>(
    rt: &R,
    lines: &LineChannel,
    empty: LineQueue,
    out: &Mutex<W>,
    notices: &NoticeChannel,
)
    requires { empty ≡ no_lines }
{
    let mut taken = empty;
    for _ in rt.forever() {
        if !lines.receive(rt, &mut taken) {
            return;
        }
        let written = write_out(rt, out, taken.bytes()).is_ok();
        if written && taken.dropped() > 0 {
            notices.note_dropped(rt, taken.dropped());
        }
        taken.clear();
    }
    unreachable!()
}

/// Writes bytes to the output, and flushes it.
fn write_out<R: Wait, W: Write>(rt: &R, out: &Mutex<W>, bytes: &[u8]) -> io::Result<()> {
    let mut out = out.lock(rt);
    out.write_all(bytes)?;
    out.flush()
}
