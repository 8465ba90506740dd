// The needs of listed lengths, filled in from a maker's table. `put_needs` serves `fill_needs` alone and has a `requires`.
ghost use Rattle.std.specs.Prelude.{◌≡◌, not, ◌++◌, map, ℕ, ◌*◌, ◌≤◌, length, drop, position};
ghost use Rattle.order.specs.Refusals.{judge, answer_by, left_by, first, time_in_range};
ghost use Rattle.needs.specs.NeedTable.{need_for, need_rows, needs_of};
ghost use Rattle.needs.specs.Inside.{first_lines};
ghost use Rattle.needs.specs.Told.{filled_told};

use super::gaps::first_unmet;
use super::meeting::{line_count, lines_of, need_for};
use super::overlaps::first_twice;
use super::{LONGEST, Unfilled};

// The first place in the list whose length is not in range.
fn first_out(lengths: &[u32]) -> Option<usize>
    ensures { result ≡ position (λ (x : ℕ). not (time_in_range x)) lengths.now }
{
    lengths.iter().position(|x| !(1..=LONGEST).contains(x))
}

// The need of each length, in the first places.
fn put_needs(table: &[u32], n: usize, lengths: &[u32], needs: &mut [u32])
    requires { (3 * n ≤ length table.now) × (length lengths.now ≤ length needs.old) }
    ensures { needs.new ≡ map (need_for (first_lines table.now n)) lengths.now
        ++ drop (length lengths.now) needs.old }
{
    for (k, &x) in lengths.iter().enumerate() {
        needs[k] = need_for(table, n, x);
    }
}

// How many needs are filled in: refusals 17, 18, 5 and 9, in that order; else each length's need. The lines that count are copied once,
// so that nothing else is read of the table.
pub fn fill_needs(table: &[u32], lengths: &[u32], needs: &mut [u32]) -> Result<usize, Unfilled>
    ensures result_value { filled_told result ≡ answer_by (judge (need_rows table.now lengths.now (length needs.old)))
        (length lengths.now) }
    ensures needs_after { needs.new ≡ left_by (judge (need_rows table.now lengths.now
        (length needs.old))) (needs_of table.now lengths.now) needs.old }
{
    let n = line_count(table);
    let lines = lines_of(table, n);
    if let Some(gap) = first_unmet(&lines, n) {
        return Err(Unfilled::NoLine(gap));
    }
    if let Some(twice) = first_twice(&lines, n) {
        return Err(Unfilled::TwoLines(twice));
    }
    if let Some(k) = first_out(lengths) {
        return Err(Unfilled::LengthOutOfRange(k + 1));
    }
    if needs.len() < lengths.len() {
        return Err(Unfilled::BufferTooShort);
    }
    put_needs(&lines, n, lengths, needs);
    Ok(lengths.len())
}
