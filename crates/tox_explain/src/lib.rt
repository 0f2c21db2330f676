//! What stands below a fault's line for a person: where the fault is, what is there, what is accepted, and what to write.
//!
//! A fault line is made for programs and never changes. An explanation is made from the fault's value and from what the command was
//! given, and its words may change.
#![tactic(auto)]

mod address;
mod bad_form;
mod command_line;
mod double_name;
mod explanation;
mod failure;
mod files;
mod forms;
mod help_words;
mod inputs;
mod json_slip;
mod line_fault;
mod listening;
mod meant_form;
mod number_option;
mod populate;
mod quoted;
mod random_words;
mod script;
mod script_field;
mod script_lines;
mod script_subject;
mod short_form;
mod text_place;
mod toxic_attributes;
mod toxic_value;
mod toxiproxy;
mod unit;
mod unknown_name;

pub use command_line::advise;
pub use explanation::explain;
pub use failure::{Failure, FolderRefusal};
pub use inputs::{Inputs, NamedText};
pub use unit::TOXICITY;
pub use unknown_name::{NearName, near_name};
