// Needs from a maker's table.
use super::{print, stream};
use needs::Unfilled;

// The needs that are lent at most.
const NEEDS: usize = 80;

// What stands in each lent need before a call.
const UNFILLED: u32 = 7;

// Lengths through a table, into a buffer of the stated length; beyond what is filled in the buffer keeps its numbers.
pub fn needs_case() {
    let mut table = [0u32; 120];
    let numbers = stream::numbers(&mut table);
    let mut lengths = [0u32; NEEDS];
    let listed = stream::numbers(&mut lengths);
    let Some(room) = stream::room(NEEDS) else {
        return;
    };
    let mut out = [UNFILLED; NEEDS];
    let filled = needs::filling::fill_needs(
        &table[..numbers],
        &lengths[..listed],
        &mut out[..room],
    );
    match filled {
        Ok(n) => print_needs(&out, n),
        Err(unfilled) => print_unfilled(unfilled),
    }
    print::changes(&out, filled.unwrap_or(0), UNFILLED);
}

fn print_needs(out: &[u32], n: usize) {
    print::text(b"needs");
    for need in out.iter().take(n) {
        print::number(*need);
    }
    print::text(b"\n");
}

// The line of a refusal.
fn print_unfilled(unfilled: Unfilled) {
    match unfilled {
        Unfilled::NoLine(length) => print::refusal(17, length as usize),
        Unfilled::TwoLines(length) => print::refusal(18, length as usize),
        Unfilled::LengthOutOfRange(place) => print::refusal(5, place),
        Unfilled::BufferTooShort => print::refusal(9, 0),
    }
}
