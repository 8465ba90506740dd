// The planner with a book by the caller's limits.
ghost use Rattle.std.specs.Prelude.{◌≡◌, length};
ghost use Rattle.order.specs.Refusals.{judge, answer_by};
ghost use Rattle.order.specs.Table.{order_of};
ghost use Rattle.order.specs.Callers.{rows_for};
ghost use Rattle.book.specs.Book.{booked_by};
ghost use Rattle.profile.specs.Least.{least_lateness};
ghost use Rattle.profile.specs.Search.{reason_of};
ghost use Rattle.planner.specs.Rows.{booked_least_rows, booked_plan_rows};
ghost use Rattle.planner.specs.Written.{BufferBy};
ghost use Rattle.planner.specs.Told.{least_told, least_count, LeastIn, planned_told, rows_of, reason_carried, ReasonTold};

use book::Book;
use order::accept::accept_counts_for;
use order::{Caller, Order, Refusal};
use planner::bound_booked::plan_booked;
use planner::lateness_booked::least_booked;
use planner::{Least, NoPlan};

pub fn least_booked_for(
    caller: Caller,
    order: Order,
    rows: &mut [u32],
    book: &mut Book,
) -> Result<Least, Refusal>
    ensures least_value { least_told result ≡ answer_by (judge (rows_for caller (order_of order)
        (booked_least_rows (order_of order) (length rows.old) book.old.counts))) (least_lateness (order_of order)) }
    ensures least_in { LeastIn (order_of order) result }
    ensures buffer_by { BufferBy (judge (rows_for caller (order_of order)
        (booked_least_rows (order_of order) (length rows.old) book.old.counts)))
        (order_of order) (least_lateness (order_of order)) rows.old rows.new (least_count result) }
    ensures counts_value { book.new.counts ≡ booked_by (judge (rows_for caller (order_of order)
        (booked_least_rows (order_of order) (length rows.old) book.old.counts))) (order_of order) book.old.counts }
{
    accept_counts_for(caller, order.processors, order.jobs)?;
    least_booked(order, rows, book)
}

pub fn plan_booked_for(
    caller: Caller,
    order: Order,
    bound: i32,
    rows: &mut [u32],
    book: &mut Book,
) -> Result<u32, NoPlan>
    ensures planned_value { planned_told result ≡ answer_by (judge (rows_for caller (order_of order)
        (booked_plan_rows (order_of order) bound (length rows.old) book.old.counts))) (rows_of result) }
    ensures reason_told { ReasonTold (order_of order) (reason_carried (judge (rows_for caller (order_of order)
        (booked_plan_rows (order_of order) bound (length rows.old) book.old.counts))) (reason_of (order_of order) bound))
        result }
    ensures buffer_by { BufferBy (judge (rows_for caller (order_of order)
        (booked_plan_rows (order_of order) bound (length rows.old) book.old.counts)))
        (order_of order) bound rows.old rows.new (rows_of result) }
    ensures counts_value { book.new.counts ≡ booked_by (judge (rows_for caller (order_of order)
        (booked_plan_rows (order_of order) bound (length rows.old) book.old.counts))) (order_of order) book.old.counts }
{
    accept_counts_for(caller, order.processors, order.jobs)?;
    plan_booked(order, bound, rows, book)
}
