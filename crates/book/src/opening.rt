// A book is opened: no minutes are planned yet.
ghost use Rattle.std.specs.Prelude.{◌≡◌};
ghost use Rattle.book.specs.Book.{opened};

use super::Book;

pub fn open_book() -> Book
    ensures { result.counts ≡ opened }
{
    Book { counts: [0u32; 16] }
}
