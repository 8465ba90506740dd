// The line of a reason: composed, and read back.
use super::{BYTES, UNWRITTEN, print, stream};
use order::Caller;
use reason::{Reason, Why};

// A reason through composing, in a buffer of the stated length; beyond what is written the buffer keeps its bytes.
pub fn compose_case(caller: Caller) {
    let order = stream::order();
    let bound = stream::signed();
    let why = stream::why();
    let Some(room) = stream::room(BYTES) else {
        return;
    };
    let mut out = [UNWRITTEN; BYTES];
    let composed = callers::telling::compose_for(caller, order, bound, why, &mut out[..room]);
    match composed {
        Ok(n) => print_line(&out[..n as usize]),
        Err(refusal) => print::refused(refusal),
    }
    print::changes(&out, composed.unwrap_or(0) as usize, UNWRITTEN);
}

// A line with its length; nothing stands behind the length 0.
fn print_line(line: &[u8]) {
    print::text(b"line");
    print::count(line.len());
    if !line.is_empty() {
        print::text(b" ");
        print::text(line);
    }
    print::text(b"\n");
}

// A line through reading back: its reason, or the refusal.
pub fn parse_case(caller: Caller) {
    let order = stream::order();
    let bound = stream::signed();
    let mut line = [0u8; BYTES];
    let n = stream::bytes(&mut line);
    match callers::telling::read_back_for(caller, order, bound, &line[..n]) {
        Ok(why) => print_why(why),
        Err(refusal) => print::refused(refusal),
    }
}

fn print_why(why: Why) {
    match why.reason {
        Some(Reason::Job(job, time)) => print_job(job, time),
        Some(Reason::Stairs(count)) => print_stairs(count, &why.dues),
        None => print::text(b"none\n"),
    }
}

fn print_job(job: u32, time: u32) {
    print::text(b"job");
    print::number(job);
    print::number(time);
    print::text(b"\n");
}

// As many due times as are counted.
fn print_stairs(count: u32, dues: &[i32]) {
    print::text(b"stairs");
    for due in dues.iter().take(count as usize) {
        print::signed(*due);
    }
    print::text(b"\n");
}
