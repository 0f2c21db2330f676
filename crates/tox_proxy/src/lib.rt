//! What the program does, as library calls over readers, writers, files, sockets and values: runs, files and picks (tox_runs),
//! one proxy on the command line (tox_inline), forecasts and checks (tox_check), serving (tox_serve), logs (tox_log), pictures and
//! pages of runs (tox_draw), and of tox_text the texts that a command prints as they stand, and the nearest name.
#![tactic(auto)]

pub use tox_check::{
    CheckFault, CheckRequest, ForecastRequest, Question, print_check, print_forecast,
};
pub use tox_draw::{LogStore, PageFault, Report, draw_log, draw_run};
pub use tox_inline::{Inline, InlineFault, InlineSetup, InlineToxic, inline_setup};
pub use tox_log::{
    HeardFault, JudgedLog, LogBytes, LogFault, LogFiles, LogLimits, NoLogs, OpenLog, ReplayFault,
    Verdict, judge_log, print_heard, print_judged, print_judged_json, print_meant, print_words,
    write_judged, write_judged_json,
};
pub use tox_runs::{
    FileFault, MAX_INPUT, MemoryFiles, NamedFiles, PickFault, PickRequest, RealFiles, Setup,
    SetupFault, StagesFault, ToxicsFault, dry_run, find_proxy, read_chain, read_file, read_opened,
    read_setup, stages_run,
};
pub use tox_serve::{
    BrokenText, FilledText, LineForm, NoNotices, NoticeChannel, Notices, Room, ServeFault,
    ServeOptions, ServeRuntime, Stop, WaitFault, listen_address, serve, serve_with, tell_waiting,
    tells_to_stop, wait_until_ready,
};
pub use tox_text::{
    DryFault, JsonField, JsonItem, JsonValue, PrintMigratedFault, PrintPickFault, VisibleName,
    WriteFault, nearest, print_migrated, print_pick, print_plan, write_object,
};
