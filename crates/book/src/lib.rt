// The minutes booked per maker (document 02, §4).
#![tactic(auto)]

pub mod minutes; // an order's minutes in a book
pub mod opening; // open_book

// No count may be over this.
pub const MOST_BOOKED: u32 = 4000000000;

// The minutes planned for each maker since the book was opened, maker 1's first.
#[derive(Clone, Copy)]
pub struct Book {
    pub counts: [u32; 16],
}
