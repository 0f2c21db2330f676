//! Tests in which each request for memory is refused.
mod given;
mod networks;
mod refusing;
mod runs;
mod values;
