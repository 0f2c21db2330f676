//! Runs of an arrivals text.
pub(crate) mod checked_input;
pub(crate) mod dry;
pub(crate) mod fault;
pub(crate) mod outcome_slices;
pub(crate) mod runner_slices;
pub(crate) mod second_pass;
pub(crate) mod slice_source;
pub(crate) mod stages;
pub(crate) mod whole_input;
