// Words, numbers and answers on standard output. No contract can speak of what is written.
use lines::answers::{put_planned, put_refused};
use order::Refusal;
use planner::NoPlan;
use text::put::{put_number, put_signed};

// The descriptor of standard output.
const STDOUT_FILENO: i32 = 1;

// These bytes.
pub fn text(words: &[u8]) {
    io::write_all(STDOUT_FILENO, words);
}

// A byte, in two digits.
pub fn hex(byte: u8) {
    io::print_hex(STDOUT_FILENO, u64::from(byte), 2);
}

// A space, and a number.
pub fn number(n: u32) {
    let mut out = [0u8; 11];
    let length = put_number(&mut out, 0, n);
    text(&out[..length]);
}

// A space, and a count, which fits 32 bits.
pub fn count(n: usize) {
    number(u32::try_from(n).unwrap_or(u32::MAX));
}

// A space, and a number of this sign.
pub fn signed(n: i32) {
    let mut out = [0u8; 12];
    let length = put_signed(&mut out, 0, n);
    text(&out[..length]);
}

// The line of a refusal.
pub fn refused(refusal: Refusal) {
    let mut out = [0u8; 30];
    let length = put_refused(&mut out, 0, refusal);
    text(&out[..length]);
}

// The line of a refusal that is told by its number.
pub fn refusal(by: u32, carried: usize) {
    text(b"refused");
    number(by);
    count(carried);
    text(b"\n");
}

// The line of an answer at a bound.
pub fn planned(answer: Result<u32, NoPlan>) {
    let mut out = [0u8; 205];
    let length = put_planned(&mut out, 0, answer);
    text(&out[..length]);
}

// A line for each item of a buffer that is changed beyond what was written: there is none.
pub fn changes<Item: Copy + PartialEq>(out: &[Item], written: usize, before: Item) {
    for item in out.iter().skip(written) {
        if *item != before {
            text(b"changed\n");
        }
    }
}
