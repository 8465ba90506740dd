// The planner (document 01): the least lateness of an order with a plan at it, and a plan at a given bound; and the same with the
// minutes booked per maker (document 02, §4).
#![tactic(auto)]

use order::Refusal;
use reason::Reason;

pub mod bound; // plan_at
pub mod bound_booked; // plan_booked
mod judging; // what is judged before any row is written
pub mod lateness; // least_lateness
pub mod lateness_booked; // least_booked
mod making; // a plan where there is no reason against the bound
pub mod room; // rows_asked

// The least lateness, and the number of rows of the plan at it.
#[derive(Clone, Copy)]
pub struct Least {
    pub lateness: i32,
    pub rows: u32,
}

// Why no plan was written at a bound: the order or the call is refused, or the bound is too tight, for this reason with the due times of
// a staircase beside it, 0 beyond.
#[derive(Clone, Copy)]
pub enum NoPlan {
    Refused(Refusal),
    TooTight(Reason, [i32; 16]),
}

impl From<Refusal> for NoPlan {
    ghost use Rattle.std.specs.Prelude.{◌≡◌};
    ghost use Rattle.planner.specs.declared.NoPlan.{NoPlan};

    ghost from_gives = { λ refusal no_plan. no_plan ≡ NoPlan.Refused refusal };

    fn from(refusal: Refusal) -> NoPlan {
        NoPlan::Refused(refusal)
    }
}
