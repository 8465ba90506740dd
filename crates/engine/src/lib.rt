// The engine: how much of each job goes into each stretch, over general caps and rooms. Push and relabel over jobs, an idle job
// holding what nobody holds in a stretch.
#![tactic(auto)]

mod advance; // a job displaces others until nothing of it is left, or it rises
pub mod filling; // solve
pub mod instance; // what amounts are asked for, and a filling under way
mod moves; // which job goes on, and whom it displaces
mod slices; // small work on lent slices
