// An order whose times are known only between a low and a high (document 02, §9): the least lateness at all lows and at all highs, and
// the order that has a given least lateness in between.
#![tactic(auto)]

use order::Order;

pub mod accept; // refusals 1 to 7, 13 and 19
pub mod between; // least_between
pub mod met; // order_between
pub mod path; // the orders on the path from all lows to all highs

// An order whose times are the lows, and the high of each job; highs behind the end of the order's jobs are not looked at.
#[derive(Clone, Copy)]
pub struct Estimate {
    pub order: Order,
    pub highs: [u32; 48],
}

// The least lateness at all lows and at all highs.
#[derive(Clone, Copy)]
pub struct Leasts {
    pub low: i32,
    pub high: i32,
}
