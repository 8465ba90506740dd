// The plan check (document 01, "Plans"): whether lent rows are a right plan, by whomever it was made.
#![tactic(auto)]

pub mod check; // check_plan
pub mod rows; // rows of lent numbers, and the four rules

// A row of a plan: the minutes from `from` up to but not including `to`.
#[derive(Clone, Copy)]
pub struct Piece {
    pub job: u32,
    pub processor: u32,
    pub from: u32,
    pub to: u32,
}
