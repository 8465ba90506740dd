// The least lateness: the refusals of acceptance, then 9; else the least lateness and a right plan at it.
ghost use Rattle.std.specs.Prelude.{◌≡◌, length};
ghost use Rattle.order.specs.Refusals.{judge, answer_by};
ghost use Rattle.order.specs.Table.{order_of};
ghost use Rattle.profile.specs.Least.{least_lateness};
ghost use Rattle.planner.specs.Rows.{least_rows};
ghost use Rattle.planner.specs.Written.{BufferBy};
ghost use Rattle.planner.specs.Told.{least_told, least_count, LeastIn};

use super::Least;
use super::judging::judge_least;
use super::making::make_plan;
use order::{Order, Refusal};
use reason::tell::least_in;

// The least lateness, with a right plan at it in the lent buffer.
pub fn least_lateness(order: Order, rows: &mut [u32]) -> Result<Least, Refusal>
    ensures result_value { least_told result
        ≡ answer_by (judge (least_rows (order_of order) (length rows.old))) (least_lateness (order_of order)) }
    ensures least_in { LeastIn (order_of order) result }
    ensures buffer_by { BufferBy (judge (least_rows (order_of order) (length rows.old))) (order_of order)
        (least_lateness (order_of order)) rows.old rows.new (least_count result) }
{
    let table = judge_least(order, rows.len())?;
    let lateness = least_in(table);
    let rows = make_plan(table, lateness, rows) as u32;
    Ok(Least { lateness, rows })
}
