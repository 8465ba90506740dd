// What jobs have, by place, where they lie by falling need, and by input number (document 02, §8). All serve the crates above and have a
// `requires`.
ghost use Rattle.std.specs.Prelude.{suc, ◌-◌, ◌≤◌};
ghost use Rattle.sums.specs.Arrays.{RowOf};
ghost use Rattle.sums.specs.Lists.{nth};
ghost use Rattle.table.specs.Held.{EachOnce, beside, value_of};

use super::lead::minutes_at;

// What the job at each of n places has, where `values` has it by input number; `numbers` has the number beside each place.
pub fn by_place(values: [u32; 48], numbers: [u32; 48], n: usize) -> [u32; 48]
    requires { (n ≤ 48) × EachOnce n (beside numbers) }
    ensures { RowOf (λ k. nth values (beside numbers k) 0) n result }
{
    let mut r = [0u32; 48];
    for k in 0..n {
        r[k] = values[(numbers[k] - 1) as usize];
    }
    r
}

// What each of n jobs has, by input number, where `values` has it by place.
pub fn by_number(values: [u32; 48], numbers: [u32; 48], n: usize) -> [u32; 48]
    requires { (n ≤ 48) × EachOnce n (beside numbers) }
    ensures { RowOf (λ j. value_of numbers n values (suc j)) n result }
{
    let mut r = [0u32; 48];
    for (number, value) in numbers[..n].iter().zip(&values) {
        r[(*number - 1) as usize] = *value;
    }
    r
}

// The end of each of n jobs at a reach, by input number.
pub fn ends_at(leads: [u32; 48], numbers: [u32; 48], n: usize, reach: u32) -> [u32; 48]
    requires { (n ≤ 48) × EachOnce n (beside numbers) }
    ensures { RowOf (λ j. reach - value_of numbers n leads (suc j)) n result }
{
    minutes_at(by_number(leads, numbers, n), reach)
}
