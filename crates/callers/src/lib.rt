// Each entry point by the caller's limits (document 02, §10). The counts are judged by them, and the rest is the dock's own function: there
// is one planner. None has a `requires`.
#![tactic(auto)]

pub mod accept; // accept_for
pub mod booking; // least_booked_for, plan_booked_for
pub mod check; // check_plan_for
pub mod estimating; // least_between_for, order_between_for
pub mod files; // read_order_for, write_order_for
pub mod planning; // least_lateness_for, plan_at_for
pub mod telling; // compose_for, read_back_for
pub mod timing; // rows_timed_for, plan_timed_for, check_timed_for
