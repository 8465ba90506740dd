// Words and numbers as text in ASCII, put into a lent buffer.
#![tactic(auto)]

pub mod put; // text put into a buffer at a place
