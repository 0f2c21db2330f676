//! The command line of `toxi`: its commands, their options and their help.
#![tactic(auto)]

mod argument;
mod argument_help;
mod arguments;
mod check;
mod command;
mod command_line;
mod commands;
mod environment;
pub mod faults;
mod forecast;
mod help;
mod link;
mod migrate;
mod pick;
mod replay;
mod report;
mod schema;
mod serve;
mod table;
mod takes;
mod topic;
mod topics;
mod toxics_help;
mod value_kind;
mod wait;

pub use argument::Argument;
pub use argument_help::{ArgumentHelp, ArgumentWords, HelpLines};
pub use command::CommandForm;
pub use command_line::{CommandLine, Task, read};
pub use commands::{COMMANDS, PROGRAM, VERSION};
pub use environment::{Environment, UsedVariable};
pub use faults::{FAULTS, FaultForm, fault_of};
pub use help::SCRIPTS as SCRIPTS_HELP;
pub use link::{DrawArguments, LinkArguments};
pub use replay::{NAMES_ON_INPUT, ReplayArguments, ReplayMode};
pub use report::ReportArguments;
pub use schema::Schema;
pub use serve::{InlineArguments, SERVE, ServeArguments, ServeSource};
pub use takes::{Absent, NumberRange, ShownNumber, Takes};
pub use topic::{HelpText, Topic};
pub use toxics_help::{ToxicHelp, ToxicsHelp};
pub use value_kind::ValueKind;
pub use wait::WaitArguments;
