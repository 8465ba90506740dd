// Lent lists as arrays. All serve this crate alone; `column_of` has a `requires`.
ghost use Rattle.std.specs.Prelude.{◌≡◌, ℕ, ◌+◌, ◌*◌, ◌≤◌, get_or};
ghost use Rattle.sums.specs.Lists.{tabulate};

// The number at a place, 0 where the list has none.
pub fn number_at(list: &[u32], at: usize) -> u32
    ensures { result ≡ get_or list.now at 0 }
{
    list.get(at).copied().unwrap_or(0)
}

// One number to a job: the first 48.
pub fn by_job(list: &[u32]) -> [u32; 48]
    ensures { result ≡ tabulate 48 (λ (j : ℕ). get_or list.now j 0) }
{
    std::array::from_fn(|j| number_at(list, j))
}

// The list in groups of so many numbers: the number at a place in each of the first N groups, 0 where the list has none.
pub fn column_of<const N: usize>(list: &[u32], group: usize, place: usize) -> [u32; N]
    requires { (N ≤ 48) × (group ≤ 4) × (place ≤ 3) }
    ensures { result ≡ tabulate N (λ (i : ℕ). get_or list.now (group * i + place) 0) }
{
    let mut column = [0; N];
    for i in 0..N {
        let Some(number) = list.get(group * i + place) else {
            return column;
        };
        column[i] = *number;
    }
    column
}
