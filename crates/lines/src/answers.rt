// The lines of a refusal and of an answer at a bound. All serve this crate and those above, and have a `requires`.
ghost use Rattle.std.specs.Prelude.{◌≡◌, true, ◌++◌, ◌+◌, ◌≤◌, length, take};
ghost use Rattle.order.specs.Refusals.{Accepted, bound_in_range};
ghost use Rattle.order.specs.Table.{order_of};
ghost use Rattle.profile.specs.Reason.{over_end, stairs};
ghost use Rattle.reason.specs.Told.{reason_told};
ghost use Rattle.std.specs.Prelude.{Some};
ghost use Rattle.sentence.specs.Handed.{handed};
ghost use Rattle.sentence.specs.Line.{composed};
ghost use Rattle.text.specs.Text.{line_end, Put};
ghost use Rattle.lines.specs.Lines.{signed_numbers, tight_line};
ghost use Rattle.lines.specs.Inside.{refusal_line, planned_line};

use order::told::{carried_of, number_of};
use order::{Order, Refusal};
use planner::NoPlan;
use reason::{Reason, Why};
use sentence::line::put_line;
use text::put::{put_bytes, put_number, put_signed};

pub fn put_refused(out: &mut [u8], at: usize, refusal: Refusal) -> usize
    requires { at + 30 ≤ length out.old }
    ensures { Put out.old at (refusal_line refusal) out.new result × (result ≤ at + 30) }
{
    let a = put_bytes(out, at, b"refused");
    let b = put_number(out, a, number_of(refusal));
    let c = put_number(out, b, carried_of(refusal));
    put_bytes(out, c, b"\n")
}

fn put_job(out: &mut [u8], at: usize, job: u32) -> usize
    requires { at + 21 ≤ length out.old }
    ensures { Put out.old at (tight_line (over_end job)) out.new result × (result ≤ at + 21) }
{
    let a = put_bytes(out, at, b"tight job");
    let b = put_number(out, a, job);
    put_bytes(out, b, b"\n")
}

// The first due times, as many as are counted.
fn put_dues(out: &mut [u8], at: usize, dues: [i32; 16], count: u32) -> usize
    requires { at + 192 ≤ length out.old }
    ensures { Put out.old at (signed_numbers (take count dues)) out.new result × (result ≤ at + 192) }
{
    let n = (count as usize).min(16);
    let mut next = at;
    for due in &dues[..n] {
        next = put_signed(out, next, *due);
    }
    next
}

fn put_stairs(out: &mut [u8], at: usize, dues: [i32; 16], count: u32) -> usize
    requires { at + 205 ≤ length out.old }
    ensures { Put out.old at (tight_line (stairs (take count dues))) out.new result × (result ≤ at + 205) }
{
    let a = put_bytes(out, at, b"tight stairs");
    let b = put_dues(out, a, dues, count);
    put_bytes(out, b, b"\n")
}

fn put_tight(out: &mut [u8], at: usize, reason: Reason, dues: [i32; 16]) -> usize
    requires { at + 205 ≤ length out.old }
    ensures { Put out.old at (tight_line (reason_told reason dues)) out.new result × (result ≤ at + 205) }
{
    match reason {
        Reason::Job(job, _) => put_job(out, at, job),
        Reason::Stairs(count) => put_stairs(out, at, dues, count),
    }
}

#[tactic(auto, unfolding(crate::specs::Lines::meets_line))]
pub fn put_planned(out: &mut [u8], at: usize, answer: Result<u32, NoPlan>) -> usize
    requires { at + 205 ≤ length out.old }
    ensures { Put out.old at (planned_line answer) out.new result × (result ≤ at + 205) }
{
    match answer {
        Ok(_) => put_bytes(out, at, b"meets\n"),
        Err(NoPlan::TooTight(reason, dues)) => put_tight(out, at, reason, dues),
        Err(NoPlan::Refused(refusal)) => put_refused(out, at, refusal),
    }
}

// The `tight` line of a reason, and after it the line of the reason itself.
pub fn put_reason(
    out: &mut [u8],
    order: Order,
    bound: i32,
    reason: Reason,
    dues: [i32; 16],
) -> usize
    requires { Accepted (order_of order) × (bound_in_range bound ≡ true) × (804 ≤ length out.old) }
    ensures { Put out.old 0 (tight_line (reason_told reason dues) ++ (composed (order_of order) bound
        (handed (order_of order) (record { reason = Some reason; dues = dues })) ++ line_end)) out.new result
        × (result ≤ 804) }
{
    let behind = put_tight(out, 0, reason, dues);
    let why = Why {
        reason: Some(reason),
        dues,
    };
    let mut text = [0u8; 598];
    let n = put_line(order, bound, why, &mut text);
    let end = put_bytes(out, behind, &text[..n]);
    put_bytes(out, end, b"\n")
}
