// The part that makers link: thin functions over the proved entry points, for C and Rust. None has a `requires`, and a refused
// call writes nothing; a refused command of the register block is a call that succeeds. link/highboyrobin.h declares them.
#![tactic(auto)]

mod answers; // what is written into a lent answer
mod books; // a book from a lent one, and into it
mod estimating; // an estimate of a file and the highs beside it
mod gathering; // an order from lists of numbers
mod handing; // a reason from numbers
mod lists; // lent lists as arrays
mod results; // a refusal as the result of a call
mod timing; // an order and the times beside it
pub mod between; // hbr_between
pub mod between_order; // hbr_between_order
pub mod block_clear; // hbr_block_clear
pub mod block_read; // hbr_block_read
pub mod block_write; // hbr_block_write
pub mod book_least; // hbr_book_least
pub mod book_plan; // hbr_book_plan
pub mod checking; // hbr_check
pub mod classing; // hbr_classes
pub mod classing_for; // classes_for
pub mod judging; // hbr_judge
pub mod lateness; // hbr_least
pub mod needing; // hbr_needs
pub mod parsing; // hbr_parse
pub mod planning; // hbr_plan
pub mod reasoning; // hbr_reason
pub mod screen_check; // hbr_screen_check
pub mod screen_judge; // hbr_screen_judge
pub mod screen_least; // hbr_screen_least
pub mod screen_plan; // hbr_screen_plan
pub mod screen_reason; // hbr_screen_reason
pub mod screen_sentence; // hbr_screen_sentence
pub mod sentencing; // hbr_sentence
pub mod timed_check; // hbr_timed_check
pub mod timed_plan; // hbr_timed_plan
pub mod timed_rows; // hbr_timed_rows
pub mod writing; // hbr_write
