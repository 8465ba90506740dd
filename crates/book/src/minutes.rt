// The minutes of an order's jobs, maker by maker, put into a book. All serve the booked planners; all but `is_full` have a `requires`.
ghost use Rattle.std.specs.Prelude.{◌≡◌, suc, ◌+◌, ◌≤◌, ◌<◌, false};
ghost use Rattle.sums.specs.Lists.{All};
ghost use Rattle.order.specs.Refusals.{Accepted};
ghost use Rattle.order.specs.Table.{order_of};
ghost use Rattle.book.specs.Book.{minutes_by, added, some_over};
ghost use Rattle.book.specs.Told.{booking_of};

use super::{Book, MOST_BOOKED};
use order::{Order, Refusal};

// Where a maker's count stands.
fn place_of(maker: u32) -> usize
    requires { (1 ≤ maker) × (maker ≤ 16) }
    ensures { (maker ≡ suc result) × (result < 16) }
{
    maker as usize - 1
}

// The times of each maker's jobs.
fn minutes_by(order: Order) -> [u32; 16]
    requires { Accepted (order_of order) }
    ensures { (result ≡ minutes_by (order_of order)) × All (λ n. n ≤ 4800000) result }
{
    let mut minutes = [0u32; 16];
    for j in 0..order.jobs as usize {
        minutes[place_of(order.makers[j])] += order.times[j];
    }
    minutes
}

// Whether some count, with these minutes, would be over the limit; a sum that 32 bits do not hold is over it too.
fn is_full(counts: [u32; 16], minutes: [u32; 16]) -> bool
    ensures { result ≡ some_over (added counts minutes) }
{
    counts
        .iter()
        .zip(&minutes)
        .any(|(count, more)| MOST_BOOKED < count.saturating_add(*more))
}

// The counts with these minutes.
fn add(counts: [u32; 16], minutes: [u32; 16]) -> [u32; 16]
    requires { some_over (added counts minutes) ≡ false }
    ensures { result ≡ added counts minutes }
{
    std::array::from_fn(|i| counts[i] + minutes[i])
}

// An order's minutes are put into a book that has room for them.
#[tactic(auto, unfolding(crate::specs::Told::booking_of))]
pub fn book_order(order: Order, book: Book) -> Result<Book, Refusal>
    requires { Accepted (order_of order) }
    ensures { result ≡ booking_of (order_of order) book }
{
    let minutes = minutes_by(order);
    if is_full(book.counts, minutes) {
        return Err(Refusal::BookFull);
    }
    Ok(Book {
        counts: add(book.counts, minutes),
    })
}
