// The times at which something changes: ready minutes, ends, openings and closings. Each stands as a lead, 11,000,001 less it, since ends
// may be negative and no time is beyond that minute. All serve this crate alone and have a `requires`.
ghost use Rattle.std.specs.Prelude.{◌≡◌, true, ℕ, ◌+◌, ◌-◌, ◌≤◌, length, get_or};
ghost use Rattle.order.specs.Lead.{lead};
ghost use Rattle.order.specs.Refusals.{bound_in_range};
ghost use Rattle.sums.specs.Arrays.{RowOf};
ghost use Rattle.allot.specs.Tables.{Put};
ghost use Rattle.timed.specs.Making.{Timeable, ChangedBy};
ghost use Rattle.timed.specs.Leads.{most_bound, Below, Small, WindowsPut};

use super::{Changes, Times};
use table::Table;
use table::distinct::put_distinct;

// The leads of n minutes, from a place on.
fn put_minutes(out: &mut [u32], at: usize, minutes: &[u32], n: usize)
    requires { (n ≤ 48) × (at ≤ 128) × (at + n ≤ length out.old) × (n ≤ length minutes.now) × Below n minutes.now }
    ensures { Put out.old out.new at n (λ i. 11000001 - get_or minutes.now i 0) }
{
    for (i, minute) in minutes[..n].iter().enumerate() {
        out[at + i] = 11000001 - minute;
    }
}

// The leads of the openings of n processors, from a place on, and behind them those of their closings.
fn put_windows(out: &mut [u32], at: usize, times: Times, n: usize)
    requires { (n ≤ 16) × (at ≤ 96) × (at + n + n ≤ length out.old) × Below n times.opens × Below n times.closes }
    ensures { WindowsPut out.old out.new at n times.opens times.closes }
{
    let opens = times.opens;
    let closes = times.closes;
    put_minutes(out, at, &opens, n);
    put_minutes(out, at + n, &closes, n);
}

// By how much a bound lies below the largest.
fn below_most(bound: i32) -> u32
    requires { bound_in_range bound ≡ true }
    ensures { (result ≡ lead most_bound bound) × (result ≤ 20000000) }
{
    (10000000 - bound) as u32
}

// The leads of n ends, from a place on: those of the due times, and by how much the bound lies below the largest.
fn put_ends(out: &mut [u32], at: usize, leads: [u32; 48], n: usize, shift: u32)
    requires { (n ≤ 48) × (at ≤ 128) × (at + n ≤ length out.old) × (shift ≤ 20000000) × Small n leads }
    ensures { Put out.old out.new at n (λ i. get_or leads i 0 + shift) }
{
    for (i, lead) in leads[..n].iter().enumerate() {
        out[at + i] = lead + shift;
    }
}

// The minute of each of the first leads, in its place.
fn to_minutes(leads: [u32; 128]) -> [u32; 128]
    ensures { RowOf (λ (i : ℕ). 11000001 - get_or leads i 0) 128 result }
{
    std::array::from_fn(|i| 11000001u32.saturating_sub(leads[i]))
}

// All of them, distinct, upwards.
pub fn changes_of(t: Table, bound: i32, times: Times) -> Changes
    requires { Timeable t bound times }
    ensures { ChangedBy t bound times result }
{
    let mut list = [0u32; 128];
    let mut by_size = [0u32; 128];
    let mut leads = [0u32; 128];
    let ready = times.ready;
    put_minutes(&mut list, 0, &ready, t.n);
    let dues = t.leads;
    put_ends(&mut list, t.n, dues, t.n, below_most(bound));
    put_windows(&mut list, 2 * t.n, times, t.m);
    let count = put_distinct(&list, 2 * t.n + 2 * t.m, &mut by_size, &mut leads);
    Changes {
        count,
        marks: to_minutes(leads),
    }
}
