// `hbr_book_plan` for C.
ghost use Rattle.std.specs.Prelude.{◌≡◌, [], length};
ghost use Rattle.order.specs.Refusals.{judge};
ghost use Rattle.order_file.specs.File.{order_in};
ghost use Rattle.highboyrobin.specs.Results.{result_of};
ghost use Rattle.highboyrobin.specs.Calls.{PlanBy};
ghost use Rattle.highboyrobin.specs.BookCalls.{book_plan_call, book_left};

#[unsafe(no_mangle)]
pub extern "C" fn hbr_book_plan(
    file: &[u8],
    bound: i32,
    rows: &mut [u32],
    book: &mut [u32],
    answer: &mut [i32],
) -> u32
    ensures value { result ≡ result_of (judge (book_plan_call file.now bound (length rows.old) book.old
        (length answer.old))) }
    ensures plan_by { PlanBy (judge (book_plan_call file.now bound (length rows.old) book.old
        (length answer.old))) (order_in file.now) bound []
        rows.old rows.new answer.old answer.new }
    ensures book_after { book.new ≡ book_left (judge (book_plan_call file.now bound (length rows.old)
        book.old (length answer.old))) (order_in file.now) book.old }
{
    highboyrobin::book_plan::hbr_book_plan(file, bound, rows, book, answer)
}
