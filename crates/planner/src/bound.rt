// The planner at a bound: the refusals of acceptance, then 8, 9 and 10; else a right plan that meets the bound.
ghost use Rattle.std.specs.Prelude.{◌≡◌, length};
ghost use Rattle.order.specs.Refusals.{judge, answer_by};
ghost use Rattle.order.specs.Table.{order_of};
ghost use Rattle.profile.specs.Search.{reason_of};
ghost use Rattle.planner.specs.Rows.{plan_rows};
ghost use Rattle.planner.specs.Written.{BufferBy};
ghost use Rattle.planner.specs.Told.{planned_told, rows_of, reason_carried, ReasonTold};

use super::NoPlan;
use super::judging::judge_bound;
use super::making::make_plan;
use order::Order;

// A plan that meets the bound, in the lent buffer: the number of its rows.
pub fn plan_at(order: Order, bound: i32, rows: &mut [u32]) -> Result<u32, NoPlan>
    ensures planned_value { planned_told result
        ≡ answer_by (judge (plan_rows (order_of order) bound (length rows.old))) (rows_of result) }
    ensures reason_told { ReasonTold (order_of order)
        (reason_carried (judge (plan_rows (order_of order) bound (length rows.old))) (reason_of (order_of order) bound)) result }
    ensures buffer_by { BufferBy (judge (plan_rows (order_of order) bound (length rows.old))) (order_of order) bound
        rows.old rows.new (rows_of result) }
{
    let table = judge_bound(order, bound, rows.len())?;
    Ok(make_plan(table, bound, rows) as u32)
}
