// The search for the first overfull staircase, over a table of what each class weighs at each due time. It knows of no
// order: the crate above fills the table.
#![tactic(auto)]

pub mod completion; // the best completions, and the heaviest staircase
pub mod finding; // the first overfull staircase

// A staircase: its class count, and the places of its due times; 0 beyond.
#[derive(Clone, Copy)]
pub struct Staircase {
    pub count: u32,
    pub at: [u32; 16],
}
