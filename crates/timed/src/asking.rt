// How many rows the timed planner asks to be lent: the refusals of acceptance, 15, 16 and 8, else that number.
ghost use Rattle.std.specs.Prelude.{◌≡◌};
ghost use Rattle.order.specs.Refusals.{judge, answer_by};
ghost use Rattle.order.specs.Table.{order_of};
ghost use Rattle.timed.specs.Times.{times_of};
ghost use Rattle.timed.specs.Changes.{timed_rows_asked};
ghost use Rattle.timed.specs.Rows.{asked_rows};
ghost use Rattle.timed.specs.Written.{asked_told};

use super::Times;
use super::judging::accept_timed;
use super::moments::changes_of;
use order::{Order, Refusal};
use table::making::table_of;

// The distinct times at which something changes, times one less than the jobs and processors together.
#[tactic(auto, unfolding(crate::specs::Rows::asked_rows, order::specs::Refusals::judge))]
pub fn rows_timed(order: Order, bound: i32, times: Times) -> Result<u32, Refusal>
    ensures { asked_told result
        ≡ answer_by (judge (asked_rows (order_of order) bound (times_of times))) (timed_rows_asked (order_of order) bound (times_of times)) }
{
    accept_timed(order, bound, times)?;
    let t = table_of(order);
    let changes = changes_of(t, bound, times);
    Ok((changes.count * (t.n + t.m - 1)) as u32)
}
