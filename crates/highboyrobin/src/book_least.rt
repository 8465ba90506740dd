// hbr_book_least: the least lateness of the order of a file, with a right plan at it, and its minutes booked.
ghost use Rattle.std.specs.Prelude.{◌≡◌, [], ◌∷◌, length};
ghost use Rattle.order.specs.Refusals.{judge};
ghost use Rattle.order_file.specs.File.{order_in};
ghost use Rattle.profile.specs.Least.{least_lateness};
ghost use Rattle.highboyrobin.specs.Results.{result_of};
ghost use Rattle.highboyrobin.specs.Calls.{PlanBy};
ghost use Rattle.highboyrobin.specs.BookCalls.{book_least_call, book_left};

use super::answers::put_least;
use super::books::{book_from, put_book};
use super::results::{SHORT_ANSWER, SHORT_BOOK, result_of};
use order_file::read::read_order;
use planner::lateness_booked::least_booked;

#[tactic(auto, using(crate::proofs::Carried::reader_carries), unfolding(order::specs::Refusals::judge, crate::specs::Results::list_call))]
pub fn hbr_book_least(file: &[u8], rows: &mut [u32], book: &mut [u32], answer: &mut [i32]) -> u32
    ensures value { result ≡ result_of (judge (book_least_call file.now (length rows.old) book.old
        (length answer.old))) }
    ensures plan_by { PlanBy (judge (book_least_call file.now (length rows.old) book.old
        (length answer.old))) (order_in file.now) (least_lateness (order_in file.now))
        (least_lateness (order_in file.now) ∷ [])
        rows.old rows.new answer.old answer.new }
    ensures book_after { book.new ≡ book_left (judge (book_least_call file.now (length rows.old)
        book.old (length answer.old))) (order_in file.now) book.old }
{
    if answer.len() < 2 {
        return SHORT_ANSWER;
    }
    if book.len() < 16 {
        return SHORT_BOOK;
    }
    let order = match read_order(file) {
        Ok(order) => order,
        Err(refusal) => return result_of(refusal),
    };
    let mut booked = book_from(book);
    match least_booked(order, rows, &mut booked) {
        Ok(least) => {
            put_book(book, booked.counts);
            put_least(answer, least.lateness, least.rows);
            0
        }
        Err(refusal) => result_of(refusal),
    }
}
