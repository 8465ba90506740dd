// What is judged before any row is written: the rows of the table, in its order, and whether there is a reason. It serves this
// crate alone: the table is bound only where a plan is to be written.
ghost use Rattle.order.specs.Table.{order_of};
ghost use Rattle.planner.specs.Judged.{JudgedAt, JudgedLeast};

use super::NoPlan;
use super::room::is_short;
use order::accept::accept;
use order::deadline::bound_in_range;
use order::{Order, Refusal};
use reason::tell::tell;
use table::Table;
use table::lead::reach_of;
use table::making::table_of;

// The rows of acceptance, 8, 9 and 10, of an order at a bound and a buffer of so many numbers.
pub fn judge_bound(order: Order, bound: i32, lent: usize) -> Result<Table, NoPlan>
    ensures { JudgedAt (order_of order) bound lent result }
{
    accept(order)?;
    if !bound_in_range(bound) {
        return Err(NoPlan::Refused(Refusal::BoundOutOfRange));
    }
    let table = table_of(order);
    if is_short(table, lent) {
        return Err(NoPlan::Refused(Refusal::BufferTooShort));
    }
    let why = tell(table, reach_of(bound));
    if let Some(reason) = why.reason {
        return Err(NoPlan::TooTight(reason, why.dues));
    }
    Ok(table)
}

// The rows of acceptance, and 9.
pub fn judge_least(order: Order, lent: usize) -> Result<Table, Refusal>
    ensures { JudgedLeast (order_of order) lent result }
{
    accept(order)?;
    let table = table_of(order);
    if is_short(table, lent) {
        return Err(Refusal::BufferTooShort);
    }
    Ok(table)
}
