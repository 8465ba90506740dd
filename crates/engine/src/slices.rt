// Small work on lent slices of numbers. Each function serves this crate alone and has a `requires`.
ghost use Rattle.std.specs.Prelude.{◌≢◌, ℕ, ◌+◌, ◌^◌, ◌<◌, ◌≤◌, length, get_or};
ghost use Rattle.engine.specs.View.{Transferred, Lowered, Raised, FirstZero};
ghost use Rattle.engine.specs.Start.{Copied};

// d from one place to another.
pub fn transfer(xs: &mut [u32], up: usize, down: usize, d: u32)
    requires up_in_bounds { (up < length xs.old) × (down < length xs.old) × (up ≢ down) }
    requires d_bound { (get_or xs.old up 0 + d < 2 ^ 32) × (d ≤ get_or xs.old down 0) }
    ensures { Transferred xs.old xs.new up down d }
{
    xs[up] += d;
    xs[down] -= d;
}

// d less at each place.
pub fn lower(xs: &mut [u32], d: u32)
    requires { (k : ℕ) → k < length xs.old → d ≤ get_or xs.old k 0 }
    ensures { Lowered xs.old xs.new d }
{
    for x in xs.iter_mut() {
        *x -= d;
    }
}

// d more at each place.
pub fn raise(xs: &mut [u32], d: u32)
    requires { (k : ℕ) → k < length xs.old → get_or xs.old k 0 + d < 2 ^ 32 }
    ensures { Raised xs.old xs.new d }
{
    for x in xs.iter_mut() {
        *x += d;
    }
}

// How many entries stand before the first 0.
pub fn before_zero(xs: &[u32]) -> usize
    ensures { FirstZero xs.now result }
{
    xs.iter().position(|x| *x == 0).unwrap_or(xs.len())
}

// The first `to` entries are those of `from`. One at a time: copy_from_slice over two lent slices would ask makers for a memmove.
pub fn copy(from: &[u32], xs: &mut [u32], to: usize)
    requires { (to ≤ length xs.old) × (to ≤ length from.now) }
    ensures { Copied from.now xs.new to }
{
    for k in 0..to {
        xs[k] = from[k];
    }
}
