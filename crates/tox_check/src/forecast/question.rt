//! What is asked of a forecast.
use tox_time::Stream;

/// How many connections are looked at, under which seed, and which of their lines are wanted.
#[derive(Clone, Copy, Debug)]
pub struct Question<'a> {
    /// The number of connections, 1 to 1,000,000.
    pub links: u64,
    pub seed: u64,
    /// The stream whose lines are wanted, or None for both.
    pub stream: Option<Stream>,
    /// The name that an applied toxic of a wanted line has, or None for any line.
    pub named: Option<&'a str>,
    /// Whether each line is an object of JSON.
    pub json: bool,
}
