// The plan check by the caller's limits.
ghost use Rattle.std.specs.Prelude.{◌≡◌, length};
ghost use Rattle.order.specs.Refusals.{judge, answer_by};
ghost use Rattle.order.specs.Table.{order_of};
ghost use Rattle.order.specs.Callers.{rows_for};
ghost use Rattle.plan.specs.Check.{is_right, check_rows};
ghost use Rattle.plan.specs.Told.{checked_told};

use order::accept::accept_counts_for;
use order::{Caller, Order, Refusal};
use plan::check::check_plan;

pub fn check_plan_for(
    caller: Caller,
    order: Order,
    bound: i32,
    rows: &[u32],
) -> Result<bool, Refusal>
    ensures { checked_told result ≡ answer_by (judge (rows_for caller (order_of order)
        (check_rows (order_of order) bound (length rows.now)))) (is_right (order_of order) bound rows.now) }
{
    accept_counts_for(caller, order.processors, order.jobs)?;
    check_plan(order, bound, rows)
}
