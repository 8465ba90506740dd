// A book from a lent one, and into it. Each function serves this crate alone and has a `requires`.
ghost use Rattle.std.specs.Prelude.{◌≡◌, ◌++◌, ◌≤◌, length, take, drop};

use book::Book;

// The first sixteen numbers.
pub fn book_from(lent: &[u32]) -> Book
    requires { 16 ≤ length lent.now }
    ensures { result.counts ≡ take 16 lent.now }
{
    let mut counts = [0; 16];
    counts.copy_from_slice(&lent[..16]);
    Book { counts }
}

// The counts in place of the first sixteen numbers.
pub fn put_book(lent: &mut [u32], counts: [u32; 16])
    requires { 16 ≤ length lent.old }
    ensures { lent.new ≡ counts ++ drop 16 lent.old }
{
    lent[..16].copy_from_slice(&counts);
}
