// Reading back: the reason whose line these bytes are. The refusals of acceptance, then 8. A reason is taken from the numbers in the
// line, its own line is composed, and the two are compared: no other line reads to it. What stands before `read_back` serves it alone,
// in part with a `requires`.
ghost use Rattle.std.specs.Prelude.{◌≡◌, true, [], ◌↔◌, ◌≤◌, eqb, length, get_or, IfOk};
ghost use Rattle.sums.specs.Same.{same_list};
ghost use Rattle.order.specs.Order.{job_of};
ghost use Rattle.order.specs.Refusals.{Accepted, judge, bound_in_range};
ghost use Rattle.order.specs.Table.{order_of};
ghost use Rattle.reason.specs.Told.{sixteen, why_of};
ghost use Rattle.std.specs.Prelude.{None};
ghost use Rattle.sentence.specs.Handed.{handed};
ghost use Rattle.sentence.specs.Line.{composed, read_back};
ghost use Rattle.sentence.specs.Scanning.{candidate};
ghost use Rattle.sentence.specs.Told.{read_rows, recovered_told};

use super::line::put_line;
use super::scan::scan;
use order::accept::accept;
use order::deadline::bound_in_range;
use order::{Order, Refusal};
use reason::{Reason, Why};

// The time of a job, 0 where there is no such job.
fn time_of(order: Order, job: u32) -> u32
    requires { Accepted (order_of order) }
    ensures { result ≡ (job_of (order_of order) job).time }
{
    match job.checked_sub(1) {
        Some(i) if i < order.jobs => order.times[i as usize],
        _ => 0,
    }
}

// Whether a line begins with j, as that of a job does.
fn is_job_line(line: &[u8]) -> bool
    ensures { result ≡ eqb (get_or line.now 0 0) 106 }
{
    line.first() == Some(&b'j')
}

// The reason that a line may be of.
fn candidate_of(order: Order, line: &[u8]) -> Why
    requires { Accepted (order_of order) }
    ensures { result ≡ candidate (order_of order) line.now }
{
    let s = scan(line);
    let dues = s.dues;
    if is_job_line(line) {
        return Why {
            reason: Some(Reason::Job(s.first, time_of(order, s.first))),
            dues: [0i32; 16],
        };
    }
    Why {
        reason: Some(Reason::Stairs(s.done / 2)),
        dues,
    }
}

// Whether a reason that stands has this line.
fn has_line(order: Order, bound: i32, why: Why, line: &[u8]) -> bool
    requires { Accepted (order_of order) × (bound_in_range bound ≡ true) }
    ensures { (result ≡ true) ↔ ((composed (order_of order) bound (handed (order_of order) why) ≡ line.now)
        × (1 ≤ length line.now)) }
{
    let mut text = [0u8; 598];
    let n = put_line(order, bound, why, &mut text);
    n != 0 && &text[..n] == line
}

// That there is none.
fn no_reason() -> Why
    ensures { result ≡ record { reason = None; dues = sixteen [] } }
{
    Why {
        reason: None,
        dues: [0i32; 16],
    }
}

// The reason of a line, of an accepted order and a bound in range.
fn recovered(order: Order, bound: i32, line: &[u8]) -> Why
    requires { Accepted (order_of order) × (bound_in_range bound ≡ true) }
    ensures { result ≡ why_of (order_of order) (read_back (order_of order) bound line.now) }
{
    let why = candidate_of(order, line);
    if has_line(order, bound, why, line) {
        return why;
    }
    no_reason()
}

pub fn read_back(order: Order, bound: i32, line: &[u8]) -> Result<Why, Refusal>
    ensures status_value { recovered_told result ≡ judge (read_rows (order_of order) bound) }
    ensures why_value { IfOk result (λ why. why ≡ why_of (order_of order) (read_back (order_of order) bound line.now)) }
{
    accept(order)?;
    if !bound_in_range(bound) {
        return Err(Refusal::BoundOutOfRange);
    }
    Ok(recovered(order, bound, line))
}
