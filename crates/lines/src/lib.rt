// What the two programs print (document 01, "Orders to try"), composed into a lent buffer.
#![tactic(auto)]

pub mod answers; // the lines of answers
pub mod programs; // what each program writes for the bytes that it reads
pub mod plans; // the lines of a plan

// The length of what is to be written, and whether it says `refused` or `tight`.
#[derive(Clone, Copy)]
pub struct Output {
    pub length: usize,
    pub refused: bool,
}
