// The timed planner, its check and the rows to be lent by the caller's limits.
ghost use Rattle.std.specs.Prelude.{◌≡◌, length};
ghost use Rattle.order.specs.Refusals.{judge, answer_by};
ghost use Rattle.order.specs.Table.{order_of};
ghost use Rattle.order.specs.Callers.{rows_for};
ghost use Rattle.plan.specs.Told.{checked_told};
ghost use Rattle.timed.specs.Changes.{timed_rows_asked};
ghost use Rattle.timed.specs.Check.{is_right_timed};
ghost use Rattle.timed.specs.Rows.{asked_rows, timed_rows, timed_check_rows};
ghost use Rattle.timed.specs.Times.{times_of};
ghost use Rattle.timed.specs.Written.{asked_told, timed_told, timed_count, TimedBufferBy};

use order::accept::accept_counts_for;
use order::{Caller, Order, Refusal};
use timed::Times;
use timed::asking::rows_timed;
use timed::checking::check_timed;
use timed::planning::plan_timed;

pub fn rows_timed_for(
    caller: Caller,
    order: Order,
    bound: i32,
    times: Times,
) -> Result<u32, Refusal>
    ensures { asked_told result ≡ answer_by (judge (rows_for caller (order_of order) (asked_rows (order_of order) bound (times_of times))))
        (timed_rows_asked (order_of order) bound (times_of times)) }
{
    accept_counts_for(caller, order.processors, order.jobs)?;
    rows_timed(order, bound, times)
}

pub fn plan_timed_for(
    caller: Caller,
    order: Order,
    bound: i32,
    times: Times,
    rows: &mut [u32],
) -> Result<Option<u32>, Refusal>
    ensures result_value { timed_told result ≡ answer_by (judge (rows_for caller (order_of order)
        (timed_rows (order_of order) bound (times_of times) (length rows.old)))) (timed_count result) }
    ensures timed_buffer_by { TimedBufferBy (judge (rows_for caller (order_of order)
        (timed_rows (order_of order) bound (times_of times) (length rows.old))))
        (order_of order) bound (times_of times) rows.old rows.new (timed_count result) }
{
    accept_counts_for(caller, order.processors, order.jobs)?;
    plan_timed(order, bound, times, rows)
}

pub fn check_timed_for(
    caller: Caller,
    order: Order,
    bound: i32,
    times: Times,
    rows: &[u32],
) -> Result<bool, Refusal>
    ensures { checked_told result ≡ answer_by (judge (rows_for caller (order_of order)
        (timed_check_rows (order_of order) bound (times_of times) (length rows.now))))
        (is_right_timed (order_of order) bound (times_of times) rows.now) }
{
    accept_counts_for(caller, order.processors, order.jobs)?;
    check_timed(order, bound, times, rows)
}
