// The reason at a bound, and the least lateness, of a table. All serve the crates above and have a `requires`.
ghost use Rattle.std.specs.Prelude.{◌≡◌, true, ℕ, ◌<◌, ◌≤◌, pos, length, get_or};
ghost use Rattle.order.specs.Lead.{bound_at, last_due, most_reach};
ghost use Rattle.order.specs.Refusals.{Accepted, bound_in_range};
ghost use Rattle.order.specs.Table.{order_of};
ghost use Rattle.profile.specs.Search.{reason_of};
ghost use Rattle.reason.specs.Asked.{FirstLate, due_or, told_of, least_reach_of};
ghost use Rattle.table.specs.Tabled.{Fine};
ghost use Rattle.reason.specs.Told.{why_of, why_told};

use super::least::least_reach;
use super::overfull::first_overfull;
use super::{Reason, Why};
use order::Order;
use stairs::Staircase;
use table::Table;
use table::lead::{bound_of, due_of, reach_of};
use table::making::table_of;

// The place of the first job in input order whose time exceeds its end: of the jobs that are late the one with the smallest
// number, wherever it lies.
pub fn first_late(o: Table, reach: u32) -> Option<usize>
    requires { Fine o }
    ensures { FirstLate o reach result }
{
    (0..o.n)
        .filter(|&k| reach < o.times[k] + o.leads[k])
        .min_by_key(|&k| o.by_need[k])
}

// The due times of a staircase's places, and 0 beyond.
pub fn dues_of(grid: &[u32; 48], stairs: &Staircase) -> [i32; 16]
    requires { ((i : ℕ) → i < stairs.now.count → get_or stairs.now.at i 0 < 48)
        × ((d : ℕ) → d < 48 → get_or grid.now d 0 ≤ 2000000) }
    ensures { (length result ≡ 16)
        × ((i : ℕ) → i < 16 → get_or result i (pos 0) ≡ due_or grid.now stairs.now.at stairs.now.count i) }
{
    std::array::from_fn(|i| {
        if i < stairs.count as usize {
            due_of(grid[stairs.at[i] as usize])
        } else {
            0
        }
    })
}

// Why a reach is too small, or that it is not.
pub fn tell(o: Table, reach: u32) -> Why
    requires fine { Fine o }
    requires reach_le_most_reach { reach ≤ most_reach }
    ensures { result ≡ told_of o reach }
{
    if let Some(k) = first_late(o, reach) {
        return Why {
            reason: Some(Reason::Job(o.by_need[k], o.times[k])),
            dues: [0i32; 16],
        };
    }
    match first_overfull(o, reach) {
        Some(stairs) => Why {
            reason: Some(Reason::Stairs(stairs.count)),
            dues: dues_of(&o.grid, &stairs),
        },
        None => Why {
            reason: None,
            dues: [0i32; 16],
        },
    }
}

// Document 01's reason why a bound is too tight, or that there is none.
pub fn reason_at(order: Order, bound: i32) -> Why
    requires { Accepted (order_of order) × (bound_in_range bound ≡ true) }
    ensures result_value { why_told result ≡ reason_of (order_of order) bound }
    ensures value { result ≡ why_of (order_of order) (reason_of (order_of order) bound) }
{
    let o = table_of(order);
    tell(o, reach_of(bound))
}

// The least lateness of a table.
pub fn least_in(o: Table) -> i32
    requires { Fine o }
    ensures { result ≡ bound_at last_due (least_reach_of o) }
{
    bound_of(least_reach(o))
}
