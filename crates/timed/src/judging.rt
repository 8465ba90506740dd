// The rows of acceptance, 15, 16 and 8. It serves this crate alone; the functions that search have a `requires`.
ghost use Rattle.std.specs.Prelude.{◌≡◌, not, suc, ◌≤◌};
ghost use Rattle.sums.specs.Lists.{tabulate};
ghost use Rattle.order.specs.Order.{processor_count, job_count};
ghost use Rattle.order.specs.Refusals.{judge, first};
ghost use Rattle.order.specs.Table.{order_of, acceptance_told, finding};
ghost use Rattle.timed.specs.Times.{times_of, minute_in_range, window_good};
ghost use Rattle.timed.specs.Rows.{times_rows, asked_rows};

use super::Times;
use order::accept::{accept, first_number};
use order::deadline::bound_in_range;
use order::{Order, Refusal};

// The first job whose ready minute is not in range.
fn first_bad_ready(order: Order, times: Times) -> Option<u32>
    requires { order.jobs ≤ 48 }
    ensures { finding result ≡ first (λ j. not (minute_in_range ((times_of times).ready j))) (tabulate (job_count (order_of order)) suc) }
{
    first_number(order.jobs, |j| 1000000 < times.ready[j])
}

// Whether a window closes after it opens, in range.
fn window_good(opens: u32, closes: u32) -> bool
    ensures { result ≡ window_good opens closes }
{
    opens < closes && closes <= 1000000
}

// The first processor whose window is not good.
fn first_bad_window(order: Order, times: Times) -> Option<u32>
    requires { order.processors ≤ 16 }
    ensures { finding result ≡ first (λ i. not (window_good ((times_of times).opens i) ((times_of times).closes i)))
        (tabulate (processor_count (order_of order)) suc) }
{
    first_number(
        order.processors,
        |i| !window_good(times.opens[i], times.closes[i]),
    )
}

// 15, 16 and 8.
#[tactic(auto, unfolding(order::specs::Refusals::judge))]
fn accept_times(order: Order, bound: i32, times: Times) -> Result<(), Refusal>
    requires { (order.jobs ≤ 48) × (order.processors ≤ 16) }
    ensures { acceptance_told result ≡ judge (times_rows (order_of order) bound (times_of times)) }
{
    if let Some(job) = first_bad_ready(order, times) {
        return Err(Refusal::ReadyOutOfRange(job));
    }
    if let Some(processor) = first_bad_window(order, times) {
        return Err(Refusal::BadWindow(processor));
    }
    if !bound_in_range(bound) {
        return Err(Refusal::BoundOutOfRange);
    }
    Ok(())
}

// 1 to 6, 13, 7, then 15, 16 and 8.
#[tactic(auto, unfolding(crate::specs::Rows::asked_rows, order::specs::Refusals::judge))]
pub fn accept_timed(order: Order, bound: i32, times: Times) -> Result<(), Refusal>
    ensures { acceptance_told result ≡ judge (asked_rows (order_of order) bound (times_of times)) }
{
    accept(order)?;
    accept_times(order, bound, times)
}
