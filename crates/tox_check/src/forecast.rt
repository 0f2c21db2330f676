//! What the connections of a proxy will meet, before anything runs.

mod flags;
mod link_line;
mod object;
mod proxy_forecast;
mod question;
mod request;
mod tally;
mod totals;

pub use proxy_forecast::print_forecast;
pub use question::Question;
pub use request::ForecastRequest;
pub use totals::places::Places;
