// Needs from a maker's table (document 02, §7): from lengths of sessions to the memory that each job needs.
#![tactic(auto)]

mod gaps; // 17: the smallest length that no line meets
pub mod filling; // the entry point
mod meeting; // lines, and the lengths that they meet
mod overlaps; // 18: the smallest length that two lines meet

// The longest length, which is the longest time of a job, and how many lines of a table count.
pub const LONGEST: u32 = 100000;

pub const MOST_LINES: usize = 32;

// Why no needs are filled in: 17 and 18 with the smallest such length, 5 with the first such place in the list, counted from 1, and 9.
#[derive(Clone, Copy)]
pub enum Unfilled {
    NoLine(u32),
    TwoLines(u32),
    LengthOutOfRange(usize),
    BufferTooShort,
}
