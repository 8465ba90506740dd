// Due times as leads, 1,000,000 less the due time, and bounds as reaches, so that no number of a sum is negative. All serve the
// crates above; all but `minutes_at` have a `requires`.
ghost use Rattle.std.specs.Prelude.{◌≡◌, true, ℕ, ◌-◌, ◌≤◌, pos, get_or};
ghost use Rattle.order.specs.Refusals.{Accepted, due_in_range, bound_in_range};
ghost use Rattle.order.specs.Table.{order_of};
ghost use Rattle.order.specs.Lead.{lead, due_at, reach_at, bound_at, last_due, most_reach};
ghost use Rattle.sums.specs.Arrays.{RowOf};
ghost use Rattle.table.specs.Tabled.{GridOf};

use super::Members;
use super::distinct::distinct_down;
use order::Order;
use order::deadline::deadline;

pub fn lead_of(due: i32) -> u32
    requires { due_in_range due ≡ true }
    ensures { result ≡ lead last_due due }
{
    (1000000 - due) as u32
}

// The due time of a lead.
pub fn due_of(lead: u32) -> i32
    requires { lead ≤ 2000000 }
    ensures { result ≡ due_at last_due lead }
{
    1000000 - (lead as i32)
}

// The reach of a bound.
pub fn reach_of(bound: i32) -> u32
    requires { bound_in_range bound ≡ true }
    ensures { (result ≡ reach_at last_due bound) × (result ≤ most_reach) }
{
    deadline(1000000, bound)
}

// The bound of a reach: at bound 0 a job due at minute 1,000,000 has the end 1,000,001.
pub fn bound_of(reach: u32) -> i32
    requires { reach ≤ 640000000 }
    ensures { result ≡ bound_at last_due reach }
{
    (reach as i32) - 1000001
}

// The difference, 0 where it is negative.
pub fn less(a: u32, b: u32) -> u32
    ensures { result ≡ a - b }
{
    a.saturating_sub(b)
}

// The minute of each lead at a reach.
pub fn minutes_at(leads: [u32; 48], reach: u32) -> [u32; 48]
    ensures { RowOf (λ (i : ℕ). reach - get_or leads i 0) 48 result }
{
    std::array::from_fn(|i| reach.saturating_sub(leads[i]))
}

// The lead of each job.
pub fn leads_of(order: Order) -> [u32; 48]
    requires { Accepted (order_of order) }
    ensures { RowOf (λ j. lead last_due (get_or order.dues j (pos 0))) order.jobs result }
{
    let mut leads = [0u32; 48];
    for j in 0..order.jobs as usize {
        leads[j] = lead_of(order.dues[j]);
    }
    leads
}

// The leads of the distinct due times, by rising due time.
pub fn grid_of(order: Order) -> Members
    requires { Accepted (order_of order) }
    ensures { GridOf last_due (order_of order) result }
{
    let leads = leads_of(order);
    let n = order.jobs as usize;
    distinct_down(&leads, n)
}
