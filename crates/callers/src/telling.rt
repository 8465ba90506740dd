// The reason as a sentence by the caller's limits: its line, and what a line reads back to.
ghost use Rattle.std.specs.Prelude.{◌≡◌, ◌≤◌, length, IfOk};
ghost use Rattle.order.specs.Refusals.{judge, answer_by, left_by};
ghost use Rattle.order.specs.Table.{order_of};
ghost use Rattle.order.specs.Callers.{rows_for};
ghost use Rattle.reason.specs.Told.{why_of};
ghost use Rattle.sentence.specs.Handed.{handed};
ghost use Rattle.sentence.specs.Line.{composed, read_back};
ghost use Rattle.sentence.specs.Told.{compose_rows, composed_told, length_told, read_rows, recovered_told};

use order::accept::accept_counts_for;
use order::{Caller, Order, Refusal};
use reason::Why;
use sentence::compose::compose;
use sentence::recover::read_back;

pub fn compose_for(
    caller: Caller,
    order: Order,
    bound: i32,
    why: Why,
    line: &mut [u8],
) -> Result<u32, Refusal>
    ensures result_value { composed_told result ≡ answer_by (judge (rows_for caller (order_of order)
        (compose_rows (order_of order) bound why (length line.old))))
        (length (composed (order_of order) bound (handed (order_of order) why))) }
    ensures line_after { line.new ≡ left_by (judge (rows_for caller (order_of order)
        (compose_rows (order_of order) bound why (length line.old))))
        (composed (order_of order) bound (handed (order_of order) why)) line.old }
    ensures result_bound { length_told result ≤ 598 }
{
    accept_counts_for(caller, order.processors, order.jobs)?;
    compose(order, bound, why, line)
}

pub fn read_back_for(caller: Caller, order: Order, bound: i32, line: &[u8]) -> Result<Why, Refusal>
    ensures status_value { recovered_told result ≡ judge (rows_for caller (order_of order) (read_rows (order_of order) bound)) }
    ensures why_value { IfOk result (λ why. why ≡ why_of (order_of order) (read_back (order_of order) bound line.now)) }
{
    accept_counts_for(caller, order.processors, order.jobs)?;
    read_back(order, bound, line)
}
