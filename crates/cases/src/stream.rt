// What the stream of cases holds: numbers of four bytes, orders, reasons, books, times, highs, files, rows. At its end every number
// reads 0.
ghost use Rattle.std.specs.Prelude.{◌≤◌, length, IfSome};

use book::Book;
use order::Order;
use reason::{Reason, Why};
use timed::Times;

// The descriptor of standard input.
const STDIN_FILENO: i32 = 0;

// The next number.
pub fn number() -> u32 {
    let mut bytes = [0u8; 4];
    io::read_full(STDIN_FILENO, &mut bytes);
    u32::from_le_bytes(bytes)
}

// The next number, with its sign.
pub fn signed() -> i32 {
    number().cast_signed()
}

// The stated length of a buffer; none where it is over the most that there is room for.
pub fn room(most: usize) -> Option<usize>
    ensures { IfSome result (λ n. n ≤ most) }
{
    let n = number() as usize;
    (n <= most).then_some(n)
}

// As many bytes as the next number says, if there is room; answers how many.
pub fn bytes(file: &mut [u8]) -> usize
    ensures { result ≤ length file.old }
{
    let Some(n) = room(file.len()) else {
        return 0;
    };
    io::read_full(STDIN_FILENO, &mut file[..n]);
    n
}

// As many numbers as the next number says, if there is room; answers how many.
pub fn numbers(rows: &mut [u32]) -> usize
    ensures { result ≤ length rows.old }
{
    let Some(n) = room(rows.len()) else {
        return 0;
    };
    for row in &mut rows[..n] {
        *row = number();
    }
    n
}

// A number for each of so many, 0 beyond: memories of processors, ready minutes or highs of jobs.
pub fn one_each<const N: usize>(count: u32) -> [u32; N] {
    std::array::from_fn(|i| if i < count as usize { number() } else { 0 })
}

// An order: its counts, its memories, its jobs.
pub fn order() -> Order {
    let processors = number();
    let jobs = number();
    let memories = one_each(processors);
    let mut times = [0u32; 48];
    let mut dues = [0i32; 48];
    let mut needs = [0u32; 48];
    let mut makers = [0u32; 48];
    for j in 0..(jobs as usize).min(48) {
        times[j] = number();
        dues[j] = signed();
        needs[j] = number();
        makers[j] = number();
    }
    Order {
        processors,
        memories,
        jobs,
        times,
        dues,
        needs,
        makers,
    }
}

// A book: sixteen counts.
pub fn book() -> Book {
    Book {
        counts: std::array::from_fn(|_| number()),
    }
}

// Ready minutes of so many jobs, and windows of so many processors.
pub fn times(jobs: u32, processors: u32) -> Times {
    let ready = one_each(jobs);
    let mut opens = [0u32; 16];
    let mut closes = [0u32; 16];
    for i in 0..(processors as usize).min(16) {
        opens[i] = number();
        closes[i] = number();
    }
    Times {
        ready,
        opens,
        closes,
    }
}

// A job or a staircase; none at any other kind.
fn reason(kind: u32, which: u32, time: u32) -> Option<Reason> {
    match kind {
        1 => Some(Reason::Job(which, time)),
        2 => Some(Reason::Stairs(which)),
        _ => None,
    }
}

// A reason: its kind, its job or count, its time, its due times.
pub fn why() -> Why {
    let kind = number();
    let which = number();
    let time = number();
    Why {
        reason: reason(kind, which, time),
        dues: std::array::from_fn(|_| signed()),
    }
}
