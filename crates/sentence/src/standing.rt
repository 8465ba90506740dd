// Whether a staircase that is handed in stands. All serve this crate alone; `steps_fit` and `weigh` have a `requires`.
ghost use Rattle.std.specs.Prelude.{◌≡◌, true, ◌↔◌, ◌≤◌, length};
ghost use Rattle.std.specs.List.{list_all};
ghost use Rattle.order.specs.Lead.{last_due};
ghost use Rattle.order.specs.Refusals.{Accepted, bound_in_range};
ghost use Rattle.order.specs.Table.{order_of};
ghost use Rattle.table.specs.Tabled.{Tabled};
ghost use Rattle.sentence.specs.Inside.{is_due, StepsFit, WeighedTold};

use super::Sums;
use super::minutes::sums_of;
use order::Order;
use reason::tell::first_late;
use table::Table;
use table::lead::reach_of;

// Whether some job is due at this time.
fn is_due(order: &Order, due: i32) -> bool
    ensures { result ≡ is_due order.now due }
{
    order
        .dues
        .iter()
        .take(order.jobs as usize)
        .any(|d| *d == due)
}

fn all_due(order: &Order, dues: &[i32]) -> bool
    ensures { result ≡ list_all (is_due order.now) dues.now }
{
    dues.iter().all(|due| is_due(order, *due))
}

// Whether each due time is some job's, and none rises above the one before it.
fn steps_fit(order: Order, dues: &[i32]) -> bool
    requires { Accepted (order_of order) }
    ensures { (result ≡ true) ↔ StepsFit (order_of order) dues.now }
{
    all_due(&order, dues) && dues.is_sorted_by(|due, next| *next <= *due)
}

// The two sums of a staircase that stands at a bound.
pub fn weigh(order: Order, t: Table, bound: i32, dues: &[i32]) -> Option<Sums>
    requires { Accepted (order_of order) × (bound_in_range bound ≡ true) × Tabled last_due (order_of order) t
        × (length dues.now ≤ 16) }
    ensures { WeighedTold (order_of order) bound dues.now result }
{
    let reach = reach_of(bound);
    if first_late(t, reach).is_some() {
        return None;
    }
    if t.s < dues.len() || !steps_fit(order, dues) {
        return None;
    }
    let sums = sums_of(t, reach, dues);
    (sums.on_hand < sums.owed).then_some(sums)
}
