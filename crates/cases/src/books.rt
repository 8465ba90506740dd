// Booked calls: a book goes through a list of calls, each given the book that the last one gave back.
use super::{ROW_NUMBERS, print, print_least, stream};
use book::Book;
use order::Caller;

// A book, how many calls there are, and the calls.
pub fn book_case(caller: Caller) {
    let mut book = stream::book();
    for _ in 0..stream::number() {
        book_call(caller, &mut book);
    }
}

// One call: what it answers, and the book that it gives back. At the least lateness the bound is not looked at.
fn book_call(caller: Caller, book: &mut Book) {
    let at_least = stream::number() == 1;
    let order = stream::order();
    let bound = stream::signed();
    let Some(room) = stream::room(ROW_NUMBERS) else {
        return;
    };
    let mut rows = [0u32; ROW_NUMBERS];
    let rows = &mut rows[..room];
    if at_least {
        print_least(callers::booking::least_booked_for(caller, order, rows, book));
    } else {
        print::planned(callers::booking::plan_booked_for(caller, order, bound, rows, book));
    }
    print_book(book);
}

fn print_book(book: &Book) {
    print::text(b"book");
    for count in &book.counts {
        print::number(*count);
    }
    print::text(b"\n");
}
