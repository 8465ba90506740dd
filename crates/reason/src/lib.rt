// Why a bound is too tight, and the least lateness, from an order's table (document 01, "Why a bound is too tight").
#![tactic(auto)]

pub mod least; // the least reach
pub mod overfull; // the first overfull staircase
pub mod tell; // the reason at a bound, and the least lateness
pub mod weight; // what each class weighs at each due time

// Document 01's two kinds of reason: a job whose time exceeds its end, with its number and its time, or a staircase with its
// class count.
#[derive(Clone, Copy)]
pub enum Reason {
    Job(u32, u32),
    Stairs(u32),
}

// Why a bound is too tight, none where it is not; beside the reason the due times of the classes 1 to k of a staircase, 0 beyond.
#[derive(Clone, Copy)]
pub struct Why {
    pub reason: Option<Reason>,
    pub dues: [i32; 16],
}
