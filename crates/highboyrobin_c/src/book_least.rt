// `hbr_book_least` for C.
ghost use Rattle.std.specs.Prelude.{◌≡◌, [], ◌∷◌, length};
ghost use Rattle.order.specs.Refusals.{judge};
ghost use Rattle.order_file.specs.File.{order_in};
ghost use Rattle.profile.specs.Least.{least_lateness};
ghost use Rattle.highboyrobin.specs.Results.{result_of};
ghost use Rattle.highboyrobin.specs.Calls.{PlanBy};
ghost use Rattle.highboyrobin.specs.BookCalls.{book_least_call, book_left};

#[unsafe(no_mangle)]
pub extern "C" fn hbr_book_least(
    file: &[u8],
    rows: &mut [u32],
    book: &mut [u32],
    answer: &mut [i32],
) -> u32
    ensures value { result ≡ result_of (judge (book_least_call file.now (length rows.old) book.old
        (length answer.old))) }
    ensures plan_by { PlanBy (judge (book_least_call file.now (length rows.old) book.old
        (length answer.old))) (order_in file.now) (least_lateness (order_in file.now))
        (least_lateness (order_in file.now) ∷ [])
        rows.old rows.new answer.old answer.new }
    ensures book_after { book.new ≡ book_left (judge (book_least_call file.now (length rows.old)
        book.old (length answer.old))) (order_in file.now) book.old }
{
    highboyrobin::book_least::hbr_book_least(file, rows, book, answer)
}
