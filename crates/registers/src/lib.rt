// The register block (document 02, §11): 256 bytes over which the planner is reached on a bus, and the rows held beside them.
#![tactic(auto)]

mod bits; // the bits of bytes 1 and 3
pub mod clearing; // cleared
mod commands; // what a command does
mod numbers; // the lateness used, and the bytes of a number
mod outcomes; // what every command clears, and what it sets when it is over
mod places; // which register an address names
mod planning; // a plan for the order that is stored in the block
pub mod reading; // read
pub mod writing; // write

// The block: its bytes, and the rows held, four numbers to a row and zeros behind them: a screen's order has at most 180 rows.
#[derive(Clone, Copy)]
pub struct Block {
    pub bytes: [u8; 256],
    pub rows: [u32; 720],
}

// What the byte at an address is.
#[derive(Clone, Copy)]
pub enum Place {
    Command,
    Flag,
    Number,
    Allow,
    Stored,
    Lateness,
    Held,
    Nothing,
}

// The flags of byte 1.
#[derive(Clone, Copy)]
pub struct Flags {
    pub done: bool,
    pub refused: bool,
    pub interrupt: bool,
}
