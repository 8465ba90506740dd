// McNaughton's wrap, running (document 01, "Plans"): the rows of amounts, stretch by stretch, on the processors that are open.
#![tactic(auto)]

pub mod opened; // the processors that are open in a stretch
mod rows; // one row, one piece, one share
pub mod stretches; // the rows of a stretch, and of a plan

// A stretch of a frame: its number, the minute that it begins at, and the one that it ends at.
#[derive(Clone, Copy)]
pub(crate) struct Stretch {
    pub number: usize,
    pub start: u32,
    pub end: u32,
}

// Where the next share goes on: the place in the processor order, and the minute.
#[derive(Clone, Copy)]
pub struct Place {
    pub processor: usize,
    pub at: u32,
}

// The rows written so far: how many stand in the lent buffer, and for each processor the number of its last one, counted from 1; 0 where
// it has none.
#[derive(Clone, Copy)]
pub(crate) struct Written {
    pub count: usize,
    pub last: [usize; 16],
}

// Processors that are open, by falling memory: how many, and their numbers.
#[derive(Clone, Copy)]
pub struct Kept {
    pub count: usize,
    pub list: [u32; 16],
}
