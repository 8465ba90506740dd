// How many rows a caller is asked to lend. All serve this crate and those above, and have a `requires`.
ghost use Rattle.std.specs.Prelude.{◌≡◌, ◌+◌, ◌-◌, ◌*◌, ◌/◌, ◌≤◌, ltb};
ghost use Rattle.order.specs.Refusals.{Accepted};
ghost use Rattle.order.specs.Table.{order_of};
ghost use Rattle.planner.specs.Rows.{rows_asked};

use order::Order;
use table::Table;
use table::lead::grid_of;

// "q × (n + m - 1)": the rows that a plan may have, of q distinct due times, n jobs and m processors.
pub fn rows_of(q: usize, n: usize, m: usize) -> usize
    requires { (q ≤ 48) × (1 ≤ n) × (n ≤ 48) × (m ≤ 16) }
    ensures { (result ≡ q * (n + m - 1)) × (result ≤ 3024) }
{
    q * (n + m - 1)
}

// Row 9: whether so many lent numbers are too few.
pub fn is_short(t: Table, lent: usize) -> bool
    requires { (t.q ≤ 48) × (1 ≤ t.n) × (t.n ≤ 48) × (t.m ≤ 16) }
    ensures { result ≡ ltb (lent / 4) (t.q * (t.n + t.m - 1)) }
{
    lent / 4 < rows_of(t.q, t.n, t.m)
}

pub fn rows_asked(order: Order) -> usize
    requires { Accepted (order_of order) }
    ensures { (result ≡ rows_asked (order_of order)) × (result ≤ 3024) }
{
    let grid = grid_of(order);
    rows_of(grid.count, order.jobs as usize, order.processors as usize)
}
