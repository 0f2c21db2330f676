//! The thread that brings logs to their files.
use crate::files::log_files::LogFiles;
use crate::files::run_logs::RunLogs;
use std::alloc::Global;
use std::sync::Wait;
use std::time::Clock;

/// Brings the lines of logs to their files, until no more come. It sleeps while none wait.
pub fn write_logs<R: Wait + Clock, F: LogFiles>(rt: &R, alloc: Global, logs: &RunLogs, files: &F) {
    let mut taken = Vec::new(alloc);
    for _ in rt.forever() {
        if !logs.channel.receive(rt, &mut taken) {
            return;
        }
        for log in &taken {
            log.write(rt, &logs.channel.bytes, files);
        }
        taken.clear();
    }
    unreachable!()
}
