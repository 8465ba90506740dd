// The lines of a lent table, and which of them meets a length. All serve this crate alone; all but `line_count` have a `requires`.
ghost use Rattle.std.specs.Prelude.{◌≡◌, ◌+◌, ◌*◌, ◌≤◌, length};
ghost use Rattle.std.specs.Option.{MatchOption};
ghost use Rattle.needs.specs.NeedTable.{line_at, meets, counted, met_by, need_for};
ghost use Rattle.needs.specs.Inside.{first_lines, FirstMeets};

use super::{LONGEST, MOST_LINES};

// How many lines count.
pub fn line_count(table: &[u32]) -> usize
    ensures { (counted table.now ≡ first_lines table.now result) × (3 * result ≤ length table.now)
        × (result ≤ 32) }
{
    MOST_LINES.min(table.len() / 3)
}

// The first n lines, copied: there is room for 32, three numbers each.
pub fn lines_of(table: &[u32], n: usize) -> [u32; 96]
    requires { (3 * n ≤ length table.now) × (n ≤ 32) }
    ensures { first_lines result n ≡ first_lines table.now n }
{
    let mut lines = [0u32; 96];
    lines[..3 * n].copy_from_slice(&table[..3 * n]);
    lines
}

// Whether line i + 1 meets a length: it begins at 1 or later, ends by the longest length, and the length lies between.
pub fn meets_at(table: &[u32], i: usize, x: u32) -> bool
    requires { 3 * i + 3 ≤ length table.now }
    ensures { result ≡ meets (line_at table.now i) x }
{
    let from = table[3 * i];
    let to = table[3 * i + 1];
    1 <= from && to <= LONGEST && (from..=to).contains(&x)
}

// The place of the first line that meets a length.
pub fn line_for(table: &[u32], n: usize, x: u32) -> Option<usize>
    requires { 3 * n ≤ length table.now }
    ensures { MatchOption result (met_by (first_lines table.now n) x ≡ 0) (FirstMeets table.now n x) }
{
    (0..n).find(|&i| meets_at(table, i, x))
}

// The need of a length; 0 where no line meets it.
pub fn need_for(table: &[u32], n: usize, x: u32) -> u32
    requires { 3 * n ≤ length table.now }
    ensures { result ≡ need_for (first_lines table.now n) x }
{
    match line_for(table, n, x) {
        Some(i) => table[3 * i + 2],
        None => 0,
    }
}
