// Sessions that arrive later, processors that rest (document 02, §5): the timed planner, its check, and the rows to be lent.
#![tactic(auto)]

pub mod asking; // rows_timed
pub mod checking; // check_timed
mod judging; // refusals 15 and 16
mod making; // amounts and rows
mod moments; // the times at which something changes
pub mod planning; // plan_timed

// A ready minute for each job, and the minutes at which each processor opens and closes. Behind the order's jobs and processors they are
// not looked at.
#[derive(Clone, Copy)]
pub struct Times {
    pub ready: [u32; 48],
    pub opens: [u32; 16],
    pub closes: [u32; 16],
}

// How many distinct times there are at which something changes, and the minute of each, upwards.
#[derive(Clone, Copy)]
pub struct Changes {
    pub count: usize,
    pub marks: [u32; 128],
}
