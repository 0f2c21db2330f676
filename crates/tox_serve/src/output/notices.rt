//! The thread that tells what isn't a line: dropped lines, broken links, full books, and lines for the same output.
ghost use Rattle.std.specs.Prelude.{◌≡◌};
ghost use Rattle.tox_serve.specs.output.LineQueue.{no_lines};

use crate::output::breaks::BrokenLinks;
use crate::output::broken_text::BrokenText;
use crate::output::filled_text::FilledText;
use crate::output::fills::FilledProxy;
use crate::output::notice_channel::{Notice, NoticeChannel};
use crate::output::queue::LineQueue;
use std::alloc::{AllocError, Global};
use std::sync::Wait;
use std::time::Clock;
use tox_config::ProxyDef;

/// Takes what is told beside the lines. One thread calls it, which may wait: no link, no line and no log waits for it.
pub trait Notices {
    /// Whole lines that were sent, in order. So many more were dropped behind them, since these weren't taken.
    fn lines(&self, lines: &[u8], dropped: u64);

    /// So many lines in a row were dropped, since the output wasn't read.
    fn dropped(&self, lines: u64);

    /// A link broke, and perhaps more.
    fn broken(&self, text: &BrokenText<'_>);

    /// A proxy's book is nearly full, or full.
    fn filled(&self, text: &FilledText<'_>);

    /// Serving has ended: what waits is told, and nothing more comes.
    fn ending(&self);
}

/// Nobody is notified.
#[derive(Clone, Copy, Debug)]
pub struct NoNotices;

impl Notices for NoNotices {
    fn lines(&self, _lines: &[u8], _dropped: u64) {}

    fn dropped(&self, _lines: u64) {}

    fn broken(&self, _text: &BrokenText<'_>) {}

    fn filled(&self, _text: &FilledText<'_>) {}

    fn ending(&self) {}
}

/// Tells what waits in a channel, and no more: it is closed. For a run that wasn't begun.
///
/// # Errors
///
/// Out of memory.
pub fn tell_waiting<R: Wait + Clock, N: Notices>(
    rt: &R,
    alloc: Global,
    channel: &NoticeChannel,
    proxies: &[ProxyDef],
    notices: &N,
) -> Result<(), AllocError> {
    let empty = LineQueue::new(alloc)?;
    notices.ending();
    channel.close(rt);
    tell_notices(rt, channel, empty, proxies, notices);
    Ok(())
}

/// Tells what comes through a channel, until no more comes.
pub(crate) fn tell_notices<R: Wait + Clock, N: Notices>(
    rt: &R,
    channel: &NoticeChannel,
    empty: LineQueue,
    proxies: &[ProxyDef],
    notices: &N,
)
    requires { empty ≡ no_lines }
{
    let mut taken = empty;
    for _ in rt.forever() {
        let Some(notice) = channel.receive(rt, &mut taken) else {
            return;
        };
        match notice {
            Notice::Lines => notices.lines(taken.bytes(), taken.dropped()),
            Notice::Dropped(lines) => notices.dropped(lines),
            Notice::Broken(broken) => tell_broken(proxies, &broken, notices),
            Notice::Filled(filled) => tell_filled(proxies, &filled, notices),
        }
        taken.clear();
    }
    unreachable!()
}

fn tell_broken<N: Notices>(proxies: &[ProxyDef], broken: &BrokenLinks, notices: &N) {
    if let Some(proxy) = proxies.get(broken.place) {
        notices.broken(&BrokenText {
            proxy: &proxy.name,
            upstream: &proxy.upstream,
            number: broken.number,
            reason: broken.reason,
            more: broken.more,
        });
    }
}

fn tell_filled<N: Notices>(proxies: &[ProxyDef], filled: &FilledProxy, notices: &N) {
    if let Some(proxy) = proxies.get(filled.place) {
        notices.filled(&FilledText {
            proxy: &proxy.name,
            fill: filled.fill,
        });
    }
}
