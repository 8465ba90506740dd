// The reason as a sentence (document 02, §1): one English line for each reason that stands, and back.
#![tactic(auto)]

pub mod compose; // the line of a reason that is handed in
pub mod line; // a line, put into a buffer
pub mod recover; // the reason of a line
mod scan; // the numbers in a line
mod standing; // whether a staircase stands
mod minutes; // minutes owed and minutes on hand

// Minutes owed and minutes on hand of a staircase.
#[derive(Clone, Copy)]
pub struct Sums {
    pub owed: u32,
    pub on_hand: u32,
}

// What is read of a line: the number under way, its last eight digits, whether a minus sign stands before it, how many numbers are done,
// the first of them, and each second one.
#[derive(Clone, Copy)]
pub struct Numbers {
    pub number: Option<u32>,
    pub minus: bool,
    pub done: u32,
    pub first: u32,
    pub dues: [i32; 16],
}
