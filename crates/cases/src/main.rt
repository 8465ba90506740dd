// Runs cases through the entry points, each as a dock's or as a screen's, and prints what they answer. The cases and the expected
// lines are made by tests/plain, which says the form of the stream (stream_form.py).
#![tactic(auto)]

mod blocks; // a register block, read and written
mod books; // booked calls, one after the other
mod estimating; // times known only between a low and a high
mod filling; // needs from a table
mod listing; // the classes of an order
mod print; // words, numbers and answers on standard output
mod sentences; // the cases of a reason's line, composed and read back
mod stream; // numbers, orders, reasons, books, times, highs and files of the stream
mod timing; // the cases with ready minutes and windows

use order::{Caller, Order, Refusal};
use planner::Least;

// The numbers of the rows that are lent at most, and the bytes.
const ROW_NUMBERS: usize = 12104;

const BYTES: usize = 900;

// What stands in each lent byte before a call.
const UNWRITTEN: u8 = 170;

// A file through the reader: the order, or the refusal.
fn read_case(caller: Caller) {
    let mut file = [0u8; BYTES];
    let n = stream::bytes(&mut file);
    match callers::files::read_order_for(caller, &file[..n]) {
        Ok(order) => print_order(order),
        Err(refusal) => print::refused(refusal),
    }
}

fn print_order(order: Order) {
    print::text(b"order");
    print::number(order.processors);
    print::number(order.jobs);
    print::text(b"\n");
    print_processors(&order);
    print_jobs(&order);
}

fn print_processors(order: &Order) {
    for memory in order.memories.iter().take(order.processors as usize) {
        print::text(b"processor");
        print::number(*memory);
        print::text(b"\n");
    }
}

fn print_jobs(order: &Order) {
    for j in 0..(order.jobs as usize).min(48) {
        print::text(b"job");
        print::number(order.times[j]);
        print::signed(order.dues[j]);
        print::number(order.needs[j]);
        print::number(order.makers[j]);
        print::text(b"\n");
    }
}

// Rows through the plan check.
fn check_case(caller: Caller) {
    let order = stream::order();
    let bound = stream::signed();
    let mut rows = [0u32; ROW_NUMBERS];
    let n = stream::numbers(&mut rows);
    print_checked(callers::check::check_plan_for(caller, order, bound, &rows[..n]));
}

// The line of a check.
fn print_checked(checked: Result<bool, Refusal>) {
    match checked {
        Ok(true) => print::text(b"yes\n"),
        Ok(false) => print::text(b"no\n"),
        Err(refusal) => print::refused(refusal),
    }
}

// An order through the writer, in a buffer of the stated length; beyond what is written the buffer keeps its bytes.
fn write_case(caller: Caller) {
    let order = stream::order();
    let Some(room) = stream::room(BYTES) else {
        return;
    };
    let mut out = [UNWRITTEN; BYTES];
    let written = callers::files::write_order_for(caller, order, &mut out[..room]);
    match written {
        Ok(n) => print_file(&out, n),
        Err(refusal) => print::refused(refusal),
    }
    print::changes(&out, written.unwrap_or(0), UNWRITTEN);
}

fn print_file(out: &[u8], n: usize) {
    print::text(b"file");
    print::count(n);
    print::text(b" ");
    for byte in out.iter().take(n) {
        print::hex(*byte);
    }
    print::text(b"\n");
}

// The least lateness, with a row buffer of the stated length.
fn least_case(caller: Caller) {
    let order = stream::order();
    let Some(room) = stream::room(ROW_NUMBERS) else {
        return;
    };
    let mut rows = [0u32; ROW_NUMBERS];
    print_least(callers::planning::least_lateness_for(caller, order, &mut rows[..room]));
}

// The line of a least lateness.
fn print_least(least: Result<Least, Refusal>) {
    match least {
        Ok(least) => {
            print::text(b"least");
            print::signed(least.lateness);
            print::text(b"\n");
        }
        Err(refusal) => print::refused(refusal),
    }
}

// A plan at a bound, with a row buffer of the stated length.
fn plan_case(caller: Caller) {
    let order = stream::order();
    let bound = stream::signed();
    let Some(room) = stream::room(ROW_NUMBERS) else {
        return;
    };
    let mut rows = [0u32; ROW_NUMBERS];
    print::planned(callers::planning::plan_at_for(caller, order, bound, &mut rows[..room]));
}

// A case of this kind, run as this caller's; nothing at any other kind.
fn run_case(kind: u32, caller: Caller) {
    match kind {
        1 => read_case(caller),
        2 => check_case(caller),
        3 => least_case(caller),
        4 => plan_case(caller),
        5 => write_case(caller),
        6 => sentences::compose_case(caller),
        7 => sentences::parse_case(caller),
        8 => books::book_case(caller),
        9 => timing::asked_case(caller),
        10 => timing::timed_case(caller),
        11 => timing::watch_case(caller),
        14 => estimating::between_case(caller),
        _ => {}
    }
}

fn main() {
    for _ in 0..1_000_000u32 {
        let kind = stream::number();
        match kind {
            0 => return,
            12 => listing::classes_case(),
            13 => filling::needs_case(),
            15 => run_case(stream::number(), Caller::Screen),
            16 => blocks::block_case(),
            _ => run_case(kind, Caller::Dock),
        }
    }
}
