// Acceptance by the caller's limits: 1 to 7 and 13, where a screen has 21 in place of 2 and 20 in place of 4.
ghost use Rattle.std.specs.Prelude.{◌≡◌};
ghost use Rattle.order.specs.Refusals.{judge, order_rows};
ghost use Rattle.order.specs.Table.{order_of, acceptance_told};
ghost use Rattle.order.specs.Callers.{limits_of};

use order::accept::{accept, accept_counts_for};
use order::{Caller, Order, Refusal};

pub fn accept_for(caller: Caller, order: Order) -> Result<(), Refusal>
    ensures { acceptance_told result ≡ judge (order_rows (limits_of caller) (order_of order)) }
{
    accept_counts_for(caller, order.processors, order.jobs)?;
    accept(order)
}
