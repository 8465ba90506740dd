// Row 17: the smallest length that no line meets. `first_unmet` serves this crate alone and has a `requires`.
ghost use Rattle.std.specs.Prelude.{◌*◌, ◌≤◌, length};
ghost use Rattle.needs.specs.NeedTable.{unmet};
ghost use Rattle.needs.specs.Inside.{first_lines, SmallestOf};

use super::LONGEST;
use super::meeting::line_for;

// Climbs from line to line: where a line meets a length, all up to its end are met. No line is climbed twice, since it lies below
// what comes after it.
pub fn first_unmet(table: &[u32], n: usize) -> Option<u32>
    requires { 3 * n ≤ length table.now }
    ensures { SmallestOf (unmet (first_lines table.now n)) result }
{
    let mut x: u32 = 1;
    while x <= LONGEST {
        let Some(i) = line_for(table, n, x) else {
            return Some(x);
        };
        x = table[3 * i + 1] + 1;
    }
    None
}
