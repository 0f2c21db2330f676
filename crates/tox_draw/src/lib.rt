//! The picture of a link: what arrived, what left and what was held between, as SVG. `pages` has the page of a run: its logs with their pictures.
#![tactic(auto)]

mod axis;
mod bytes_by_column;
mod curve;
mod draw;
mod form;
mod frame;
mod front;
mod heading;
mod labels;
mod link_end;
mod marks;
mod pages;
mod parts;
mod path;
mod picture;
mod place;
mod recorded;
mod sentences;
mod setting;
mod strand;
mod strands;
mod style;
mod ticks;
mod unit;

pub use draw::draw_run;
pub use pages::{LogStore, PageFault, Report};
pub use recorded::draw_log;
