// Row 18: the smallest length that two lines meet, from the pairs of lines. All serve this crate alone; all but `smaller` have a
// `requires`.
ghost use Rattle.std.specs.Prelude.{◌≡◌, ◌&&◌, ℕ, ◌+◌, ◌*◌, ◌≤◌, length};
ghost use Rattle.needs.specs.NeedTable.{line_at, meets, met_twice};
ghost use Rattle.needs.specs.Inside.{first_lines, SmallestOf, smaller};

use super::meeting::meets_at;

// The smaller of two lengths, each of which there may be none of.
fn smaller(a: Option<u32>, b: Option<u32>) -> Option<u32>
    ensures { result ≡ smaller a b }
{
    match (a, b) {
        (Some(x), Some(y)) => Some(x.min(y)),
        (x, None) | (None, x) => x,
    }
}

// The smallest length that lines i + 1 and k + 1 both meet: they overlap exactly if both meet the later of their beginnings.
fn first_both(table: &[u32], i: usize, k: usize) -> Option<u32>
    requires { (3 * i + 3 ≤ length table.now) × (3 * k + 3 ≤ length table.now) }
    ensures { SmallestOf (λ (x : ℕ). meets (line_at table.now i) x && meets (line_at table.now k) x) result }
{
    let x = table[3 * i].max(table[3 * k]);
    (meets_at(table, i, x) && meets_at(table, k, x)).then_some(x)
}

// One line more: line i + 1 may meet a length that an earlier line meets, below the smallest so far.
fn with_line(table: &[u32], i: usize, before: Option<u32>) -> Option<u32>
    requires { (3 * i + 3 ≤ length table.now) × SmallestOf (met_twice (first_lines table.now i)) before }
    ensures { SmallestOf (met_twice (first_lines table.now (i + 1))) result }
{
    let mut x = before;
    for k in 0..i {
        x = smaller(x, first_both(table, i, k));
    }
    x
}

// The smallest length that two of the first n lines meet.
pub fn first_twice(table: &[u32], n: usize) -> Option<u32>
    requires { 3 * n ≤ length table.now }
    ensures { SmallestOf (met_twice (first_lines table.now n)) result }
{
    let mut x = None;
    for i in 0..n {
        x = with_line(table, i, x);
    }
    x
}
