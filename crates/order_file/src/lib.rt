// The order file (document 01, "Order and file"; the maker in it: document 02, §4): reader and writer.
#![tactic(auto)]

pub mod bytes; // numbers as bytes
pub mod read; // read_order
pub mod write; // write_order

// The bytes of a job and of the trailer, and of the longest file.
pub const JOB_WIDTH: usize = 16;

pub const TRAILER_WIDTH: usize = 12;

pub const LONGEST_FILE: usize = 844;

// Where the lists lie, and how long they are.
#[derive(Clone, Copy)]
pub struct Lists {
    pub processors_at: usize,
    pub jobs_at: usize,
    pub processors: usize,
    pub jobs: usize,
}
