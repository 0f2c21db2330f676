//! Tests of words, files and texts, and of what is printed of faults. Most rows stand in `tests/rows`, which the program runs.
mod chains;
mod dry;
mod fault_names;
mod migrations;
mod picks;
mod populates;
mod scripts;
mod words;
mod written;
