//! Tests of what stands below plans: arrivals, ends, short forms, stages, the stage network and running stages.
mod arrivals;
mod ends;
mod gates;
mod running;
mod scarce_stages;
mod short_forms;
mod slice_lists;
mod stages;
mod steps;
mod threads;
mod workers;
