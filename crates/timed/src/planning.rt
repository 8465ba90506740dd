// The timed planner: the refusals of acceptance, 15, 16, 8, 9 and 10, the last without a reason; else a right plan that keeps the times.
ghost use Rattle.std.specs.Prelude.{◌≡◌, length};
ghost use Rattle.order.specs.Refusals.{judge, answer_by};
ghost use Rattle.order.specs.Table.{order_of};
ghost use Rattle.timed.specs.Times.{times_of};
ghost use Rattle.timed.specs.Rows.{timed_rows};
ghost use Rattle.timed.specs.Written.{timed_told, timed_count, TimedBufferBy};

use super::Times;
use super::judging::accept_timed;
use super::making::make_timed;
use super::moments::changes_of;
use order::{Order, Refusal};
use table::making::table_of;

// The number of rows of a plan that meets the bound and keeps the times, in the lent buffer; or that there is none.
#[tactic(auto, unfolding(crate::specs::Rows::asked_rows, order::specs::Refusals::judge))]
pub fn plan_timed(
    order: Order,
    bound: i32,
    times: Times,
    rows: &mut [u32],
) -> Result<Option<u32>, Refusal>
    ensures result_value { timed_told result
        ≡ answer_by (judge (timed_rows (order_of order) bound (times_of times) (length rows.old))) (timed_count result) }
    ensures timed_buffer_by { TimedBufferBy (judge (timed_rows (order_of order) bound (times_of times) (length rows.old)))
        (order_of order) bound (times_of times) rows.old rows.new (timed_count result) }
{
    accept_timed(order, bound, times)?;
    let t = table_of(order);
    let changes = changes_of(t, bound, times);
    if rows.len() / 4 < changes.count * (t.n + t.m - 1) {
        return Err(Refusal::BufferTooShort);
    }
    Ok(make_timed(t, bound, times, changes, rows))
}
