// hbr_book_plan: a right plan at a bound, for the order of a file, and its minutes booked.
ghost use Rattle.std.specs.Prelude.{◌≡◌, [], length};
ghost use Rattle.order.specs.Refusals.{judge};
ghost use Rattle.order_file.specs.File.{order_in};
ghost use Rattle.highboyrobin.specs.Results.{result_of};
ghost use Rattle.highboyrobin.specs.Calls.{PlanBy};
ghost use Rattle.highboyrobin.specs.BookCalls.{book_plan_call, book_left};

use super::answers::put_count;
use super::books::{book_from, put_book};
use super::results::{SHORT_ANSWER, SHORT_BOOK, TOO_TIGHT, result_of};
use order_file::read::read_order;
use planner::NoPlan;
use planner::bound_booked::plan_booked;

#[tactic(auto, using(crate::proofs::Carried::reader_carries), unfolding(order::specs::Refusals::judge, crate::specs::Results::list_call))]
pub fn hbr_book_plan(
    file: &[u8],
    bound: i32,
    rows: &mut [u32],
    book: &mut [u32],
    answer: &mut [i32],
) -> u32
    ensures value { result ≡ result_of (judge (book_plan_call file.now bound (length rows.old) book.old
        (length answer.old))) }
    ensures plan_by { PlanBy (judge (book_plan_call file.now bound (length rows.old) book.old
        (length answer.old))) (order_in file.now) bound []
        rows.old rows.new answer.old answer.new }
    ensures book_after { book.new ≡ book_left (judge (book_plan_call file.now bound (length rows.old)
        book.old (length answer.old))) (order_in file.now) book.old }
{
    if answer.len() < 1 {
        return SHORT_ANSWER;
    }
    if book.len() < 16 {
        return SHORT_BOOK;
    }
    let order = match read_order(file) {
        Ok(order) => order,
        Err(refusal) => return result_of(refusal),
    };
    let mut booked = book_from(book);
    match plan_booked(order, bound, rows, &mut booked) {
        Ok(count) => {
            put_book(book, booked.counts);
            put_count(answer, count);
            0
        }
        Err(NoPlan::Refused(refusal)) => result_of(refusal),
        Err(NoPlan::TooTight(_, _)) => TOO_TIGHT,
    }
}
