// What is written into a lent answer. Each function serves this crate alone and has a `requires`.
ghost use Rattle.std.specs.Prelude.{◌≡◌, ◌∷◌, ◌++◌, ◌≤◌, ◌<◌, pos, length, take, drop};
ghost use Rattle.order.specs.Refusals.{Accepted};
ghost use Rattle.order.specs.Table.{order_of};
ghost use Rattle.highboyrobin.specs.Calls.{sizes_of};
ghost use Rattle.highboyrobin.specs.Inside.{kind_of, which_of, time_of, why_numbers};

use order::Order;
use planner::room::rows_asked;
use reason::{Reason, Why};

// A count as a number of an answer.
fn count_of(n: u32) -> i32
    requires { n < 2147483648 }
    ensures { result ≡ pos n }
{
    n as i32
}

// One count.
pub fn put_count(answer: &mut [i32], n: u32)
    requires { (n < 2147483648) × (1 ≤ length answer.old) }
    ensures { answer.new ≡ pos n ∷ drop 1 answer.old }
{
    answer[0] = count_of(n);
}

// Two latenesses.
pub fn put_two(answer: &mut [i32], low: i32, high: i32)
    requires { 2 ≤ length answer.old }
    ensures { answer.new ≡ low ∷ high ∷ drop 2 answer.old }
{
    answer[0] = low;
    answer[1] = high;
}

// A lateness and a count.
pub fn put_least(answer: &mut [i32], lateness: i32, n: u32)
    requires { (n < 2147483648) × (2 ≤ length answer.old) }
    ensures { answer.new ≡ lateness ∷ pos n ∷ drop 2 answer.old }
{
    answer[0] = lateness;
    answer[1] = count_of(n);
}

// The sizes of an order.
pub fn put_sizes(answer: &mut [i32], order: Order)
    requires { Accepted (order_of order) × (3 ≤ length answer.old) }
    ensures { answer.new ≡ sizes_of (order_of order) ++ drop 3 answer.old }
{
    answer[0] = count_of(order.processors);
    answer[1] = count_of(order.jobs);
    answer[2] = count_of(rows_asked(order) as u32);
}

// Three counts.
fn put_three(answer: &mut [i32], kind: u32, first: u32, second: u32)
    requires { (kind < 2147483648) × (first < 2147483648) × (second < 2147483648) × (3 ≤ length answer.old) }
    ensures { answer.new ≡ pos kind ∷ pos first ∷ pos second ∷ drop 3 answer.old }
{
    answer[0] = count_of(kind);
    answer[1] = count_of(first);
    answer[2] = count_of(second);
}

// Sixteen due times from place 3 on.
fn put_dues(answer: &mut [i32], dues: [i32; 16])
    requires { 19 ≤ length answer.old }
    ensures { answer.new ≡ take 3 answer.old ++ (dues ++ drop 19 answer.old) }
{
    answer[3..19].copy_from_slice(&dues);
}

// The kind of a reason; the job or the count of classes; the job's time. 0 where there is none.
fn numbers_of(told: Option<Reason>) -> (u32, u32, u32)
    ensures { result ≡ (kind_of told, which_of told, time_of told) }
{
    match told {
        None => (0, 0, 0),
        Some(Reason::Job(job, time)) => (1, job, time),
        Some(Reason::Stairs(count)) => (2, count, 0),
    }
}

// A reason, or that there is none.
pub fn put_reason(answer: &mut [i32], why: Why)
    requires { (which_of why.reason < 2147483648) × (time_of why.reason < 2147483648) × (19 ≤ length answer.old) }
    ensures { answer.new ≡ why_numbers why ++ drop 19 answer.old }
{
    let (kind, which, time) = numbers_of(why.reason);
    put_three(answer, kind, which, time);
    put_dues(answer, why.dues);
}
