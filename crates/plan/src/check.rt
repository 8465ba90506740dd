// The plan check: the refusals of acceptance, 8, then 11; else yes or no.
ghost use Rattle.std.specs.Prelude.{◌≡◌, length};
ghost use Rattle.order.specs.Refusals.{judge, answer_by};
ghost use Rattle.order.specs.Table.{order_of};
ghost use Rattle.plan.specs.Check.{is_right, check_rows};
ghost use Rattle.plan.specs.Told.{checked_told};

use super::rows::rows_right;
use order::{Order, Refusal};

// Whether the lent rows are a right plan for the order and the bound: rows in any order, four numbers to a row.
#[tactic(auto, unfolding(crate::specs::Check::check_rows, order::specs::Refusals::judge))]
pub fn check_plan(order: Order, bound: i32, rows: &[u32]) -> Result<bool, Refusal>
    ensures { checked_told result ≡ answer_by (judge (check_rows (order_of order) bound (length rows.now)))
        (is_right (order_of order) bound rows.now) }
{
    order::accept::accept(order)?;
    if !order::deadline::bound_in_range(bound) {
        return Err(Refusal::BoundOutOfRange);
    }
    if 12096 < rows.len() {
        return Err(Refusal::TooManyRows);
    }
    Ok(rows_right(order, bound, rows))
}
