//! Texts: what an arrivals text says, result, plan and pick texts on their way to a writer, and the name that is nearest to a mistyped one.
#![tactic(auto)]

mod arrivals;
mod fault;
mod json;
mod json_line;
mod migrated_text;
mod names;
mod nearest_name;
mod parts;
mod pick_text;
mod plan_text;
mod prepend_buffer;
mod printer;
mod result_line;
mod short_form;

pub use arrivals::arrivals_line::{Event, Line, instant_of, line_of};
pub use arrivals::check::check_arrivals;
pub use arrivals::hex_pairs::decode_into;
pub use arrivals::list::list_arrivals;
pub use arrivals::text_lines::first_line;
pub use fault::{DryFault, WriteFault};
pub use json::{JsonItem, JsonValue, print_quoted};
pub use json_line::{JsonField, print_event, print_fields, print_object, write_object};
pub use migrated_text::{PrintMigratedFault, print_migrated};
pub use names::VisibleName;
pub use nearest_name::nearest;
pub use parts::Part;
pub use pick_text::{PrintPickFault, print_pick};
pub use plan_text::print_plan;
pub use printer::{LinePrinter, Printer, SizedPrinter, write_parts};
pub use result_line::{print_ending, print_lent};
pub use short_form::print_short;
