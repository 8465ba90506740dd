// The best completions: what the later classes of a staircase can weigh at most, once the earlier ones are settled. All
// serve the search and have a `requires`.
ghost use Rattle.std.specs.Prelude.{◌≡◌, ℕ, suc, ◌+◌, ◌<◌, ◌≤◌, get_or};
ghost use Rattle.sums.specs.Most.{most};
ghost use Rattle.sums.specs.Arrays.{RowOf};
ghost use Rattle.stairs.specs.Places.{best};
ghost use Rattle.stairs.specs.Tables.{cell, Small, Completed};

// One more class in front: for each due time the best that this class and the rest weigh up to it.
pub fn above(w: &[u32; 48], rest: &[u32; 48], q: usize) -> [u32; 48]
    requires q_bound { q ≤ 48 }
    requires by_index { (e : ℕ) → e < q → (get_or w.now e 0 ≤ 40000000) × (get_or rest.now e 0 ≤ 1000000000) }
    ensures { RowOf (λ e. most (suc e) (λ x. get_or w.now x 0 + get_or rest.now x 0)) q result }
{
    let mut row = [0u32; 48];
    let mut top: u32 = 0;
    for d in 0..q {
        top = top.max(w[d] + rest[d]);
        row[d] = top;
    }
    row
}

// The best completions of the last 0 to k of k + 1 classes.
pub fn completions(t: &[[u32; 48]; 16], k: usize, q: usize) -> [[u32; 48]; 16]
    requires { (k < 16) × (q ≤ 48) × Small t.now }
    ensures { Completed t.now (suc k) q k result }
{
    let mut c = [[0u32; 48]; 16];
    for m in 0..k {
        c[m + 1] = above(&t[k - m], &c[m], q);
    }
    c
}

// The weight of the heaviest staircase of k + 1 classes.
pub fn heaviest(t: &[[u32; 48]; 16], k: usize, q: usize) -> u32
    requires { (k < 16) × (q ≤ 48) × (0 < q) × Small t.now }
    ensures { (result ≡ best (cell t.now) (suc k) q) × (result ≤ 640000000) }
{
    let c = completions(t, k, q);
    above(&t[0], &c[k], q)[q - 1]
}
