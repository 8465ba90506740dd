// Amounts in a frame: how many minutes of each job go into each stretch, by the engine.
#![tactic(auto)]

pub mod filling; // the engine on a table in a frame
mod tables; // caps, rooms, times and classes as the engine reads them
