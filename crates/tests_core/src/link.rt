//! Tests of live links: the core, `carry`, `drive` and the book.
mod books;
mod carries;
mod carrying;
mod case_notes;
mod core_case;
mod cores;
mod drives;
mod drives_one_by_one;
mod driving;
mod failing_rests;
mod link_ends;
mod plain_drives;
mod polled_ends;
mod scarce_links;
mod schedules;
mod table_values;
