// The least lateness with a book: the refusals of acceptance, 9, and 14 last of all; else the least lateness and a right plan at it,
// and its minutes are booked.
ghost use Rattle.std.specs.Prelude.{◌≡◌, length};
ghost use Rattle.order.specs.Refusals.{judge, answer_by};
ghost use Rattle.order.specs.Table.{order_of};
ghost use Rattle.book.specs.Book.{booked_by};
ghost use Rattle.profile.specs.Least.{least_lateness};
ghost use Rattle.planner.specs.Rows.{booked_least_rows};
ghost use Rattle.planner.specs.Written.{BufferBy};
ghost use Rattle.planner.specs.Told.{least_told, least_count, LeastIn};

use super::Least;
use super::judging::judge_least;
use super::making::make_plan;
use book::Book;
use book::minutes::book_order;
use order::{Order, Refusal};
use reason::tell::least_in;

// The least lateness, with a right plan at it in the lent buffer, and its minutes in the book.
pub fn least_booked(order: Order, rows: &mut [u32], book: &mut Book) -> Result<Least, Refusal>
    ensures least_value { least_told result
        ≡ answer_by (judge (booked_least_rows (order_of order) (length rows.old) book.old.counts))
        (least_lateness (order_of order)) }
    ensures least_in { LeastIn (order_of order) result }
    ensures buffer_by { BufferBy (judge (booked_least_rows (order_of order) (length rows.old) book.old.counts))
        (order_of order) (least_lateness (order_of order)) rows.old rows.new (least_count result) }
    ensures counts_value { book.new.counts
        ≡ booked_by (judge (booked_least_rows (order_of order) (length rows.old) book.old.counts))
        (order_of order) book.old.counts }
{
    let table = judge_least(order, rows.len())?;
    *book = book_order(order, *book)?;
    let lateness = least_in(table);
    let rows = make_plan(table, lateness, rows) as u32;
    Ok(Least { lateness, rows })
}
