// The planner at a bound with a book: the refusals of acceptance, 8, 9, 10, and 14 last of all; else a right plan that meets the bound,
// and its minutes are booked.
ghost use Rattle.std.specs.Prelude.{◌≡◌, length};
ghost use Rattle.order.specs.Refusals.{judge, answer_by};
ghost use Rattle.order.specs.Table.{order_of};
ghost use Rattle.profile.specs.Search.{reason_of};
ghost use Rattle.book.specs.Book.{booked_by};
ghost use Rattle.planner.specs.Rows.{booked_plan_rows};
ghost use Rattle.planner.specs.Written.{BufferBy};
ghost use Rattle.planner.specs.Told.{planned_told, rows_of, reason_carried, ReasonTold};

use super::NoPlan;
use super::judging::judge_bound;
use super::making::make_plan;
use book::Book;
use book::minutes::book_order;
use order::Order;

// A plan that meets the bound, in the lent buffer, and its minutes in the book.
pub fn plan_booked(
    order: Order,
    bound: i32,
    rows: &mut [u32],
    book: &mut Book,
) -> Result<u32, NoPlan>
    ensures planned_value { planned_told result
        ≡ answer_by (judge (booked_plan_rows (order_of order) bound (length rows.old) book.old.counts)) (rows_of result) }
    ensures reason_told { ReasonTold (order_of order)
        (reason_carried (judge (booked_plan_rows (order_of order) bound (length rows.old) book.old.counts))
        (reason_of (order_of order) bound)) result }
    ensures buffer_by { BufferBy (judge (booked_plan_rows (order_of order) bound (length rows.old) book.old.counts))
        (order_of order) bound rows.old rows.new (rows_of result) }
    ensures counts_value { book.new.counts
        ≡ booked_by (judge (booked_plan_rows (order_of order) bound (length rows.old) book.old.counts))
        (order_of order) book.old.counts }
{
    let table = judge_bound(order, bound, rows.len())?;
    *book = book_order(order, *book)?;
    Ok(make_plan(table, bound, rows) as u32)
}
