// The planner by the caller's limits: the least lateness, and a plan at a bound.
ghost use Rattle.std.specs.Prelude.{◌≡◌, length};
ghost use Rattle.order.specs.Refusals.{judge, answer_by};
ghost use Rattle.order.specs.Table.{order_of};
ghost use Rattle.order.specs.Callers.{rows_for};
ghost use Rattle.profile.specs.Least.{least_lateness};
ghost use Rattle.profile.specs.Search.{reason_of};
ghost use Rattle.planner.specs.Rows.{least_rows, plan_rows};
ghost use Rattle.planner.specs.Written.{BufferBy};
ghost use Rattle.planner.specs.Told.{least_told, least_count, LeastIn, planned_told, rows_of, reason_carried, ReasonTold};

use order::accept::accept_counts_for;
use order::{Caller, Order, Refusal};
use planner::bound::plan_at;
use planner::lateness::least_lateness;
use planner::{Least, NoPlan};

pub fn least_lateness_for(caller: Caller, order: Order, rows: &mut [u32]) -> Result<Least, Refusal>
    ensures result_value { least_told result ≡ answer_by (judge (rows_for caller (order_of order)
        (least_rows (order_of order) (length rows.old)))) (least_lateness (order_of order)) }
    ensures least_in { LeastIn (order_of order) result }
    ensures buffer_by { BufferBy (judge (rows_for caller (order_of order) (least_rows (order_of order) (length rows.old))))
        (order_of order) (least_lateness (order_of order)) rows.old rows.new (least_count result) }
{
    accept_counts_for(caller, order.processors, order.jobs)?;
    least_lateness(order, rows)
}

pub fn plan_at_for(
    caller: Caller,
    order: Order,
    bound: i32,
    rows: &mut [u32],
) -> Result<u32, NoPlan>
    ensures planned_value { planned_told result ≡ answer_by (judge (rows_for caller (order_of order)
        (plan_rows (order_of order) bound (length rows.old)))) (rows_of result) }
    ensures reason_told { ReasonTold (order_of order) (reason_carried (judge (rows_for caller (order_of order)
        (plan_rows (order_of order) bound (length rows.old)))) (reason_of (order_of order) bound)) result }
    ensures buffer_by { BufferBy (judge (rows_for caller (order_of order) (plan_rows (order_of order) bound (length rows.old))))
        (order_of order) bound rows.old rows.new (rows_of result) }
{
    accept_counts_for(caller, order.processors, order.jobs)?;
    plan_at(order, bound, rows)
}
