// What each program writes for the bytes that it reads, whole. Each function serves the programs and has a `requires`: room for
// the longest output.
ghost use Rattle.std.specs.Prelude.{◌≡◌, true, ◌≤◌, length};
ghost use Rattle.order.specs.Refusals.{Accepted};
ghost use Rattle.order.specs.Table.{order_of};
ghost use Rattle.text.specs.Text.{Put};
ghost use Rattle.lines.specs.Programs.{PlanOrderOutput, TryBoundOutput};
ghost use Rattle.lines.specs.Inside.{refusal_line, LeastOutput, BoundOutput};

use super::Output;
use super::answers::{put_reason, put_refused};
use super::plans::put_plan;
use order::{Order, Refusal};
use order_file::bytes::{read4, to_signed};
use order_file::read::read_order;
use planner::NoPlan;
use planner::bound::plan_at;
use planner::lateness::least_lateness;
use text::put::put_bytes;

// Of an accepted order.
fn least_output(order: Order, out: &mut [u8]) -> Output
    requires { Accepted (order_of order) × (151233 ≤ length out.old) }
    ensures { LeastOutput (order_of order) out.old out.new result × (result.length ≤ 151233) }
{
    let mut rows = [0u32; 12096];
    match least_lateness(order, &mut rows) {
        Ok(least) => Output {
            length: put_plan(out, least.lateness, &rows, least.rows),
            refused: false,
        },
        Err(refusal) => refused_output(refusal, out),
    }
}

// Of a refusal.
fn refused_output(refusal: Refusal, out: &mut [u8]) -> Output
    requires { 30 ≤ length out.old }
    ensures { Put out.old 0 (refusal_line refusal) out.new result.length × (result.length ≤ 30) × (result.refused ≡ true) }
{
    Output {
        length: put_refused(out, 0, refusal),
        refused: true,
    }
}

// plan-order, of a file.
pub fn plan_output(file: &[u8], out: &mut [u8]) -> Output
    requires { 151233 ≤ length out.old }
    ensures { PlanOrderOutput file.now out.old out.new result × (result.length ≤ 151233) }
{
    match read_order(file) {
        Ok(order) => least_output(order, out),
        Err(refusal) => refused_output(refusal, out),
    }
}

// Of an order at a bound.
fn bound_output(order: Order, bound: i32, out: &mut [u8]) -> Output
    requires { 804 ≤ length out.old }
    ensures { BoundOutput (order_of order) bound out.old out.new result × (result.length ≤ 804) }
{
    let mut rows = [0u32; 12096];
    match plan_at(order, bound, &mut rows) {
        Ok(_) => Output {
            length: put_bytes(out, 0, b"meets\n"),
            refused: false,
        },
        Err(NoPlan::TooTight(reason, dues)) => Output {
            length: put_reason(out, order, bound, reason, dues),
            refused: true,
        },
        Err(NoPlan::Refused(refusal)) => refused_output(refusal, out),
    }
}

// try-bound, of a bound and a file.
pub fn tried_output(input: &[u8], out: &mut [u8]) -> Output
    requires { 804 ≤ length out.old }
    ensures { TryBoundOutput input.now out.old out.new result × (result.length ≤ 804) }
{
    if input.len() < 4 {
        return refused_output(Refusal::BadFile, out);
    }
    let bound = to_signed(read4(input, 0));
    match read_order(&input[4..]) {
        Ok(order) => bound_output(order, bound, out),
        Err(refusal) => refused_output(refusal, out),
    }
}
