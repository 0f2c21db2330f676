//! Runs of an arrivals text, and the files that set up what is run.
#![tactic(auto)]

mod files;
mod runs;

pub use files::finding::find_proxy;
pub use files::named_files::{MemoryFiles, NamedFiles, RealFiles};
pub use files::pick_request::{PickFault, PickRequest};
pub use files::setup::{Setup, SetupFault, read_setup};
pub use files::toxics::{ToxicsFault, read_chain};
pub use files::{FileFault, read_file, read_opened};
pub use runs::dry::dry_run;
pub use runs::fault::StagesFault;
pub use runs::stages::stages_run;
pub use runs::whole_input::{InputFault, MAX_INPUT, read_input};
