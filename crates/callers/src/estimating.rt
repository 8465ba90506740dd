// Times between two numbers by the caller's limits: 19 stands right after 13 for either.
ghost use Rattle.std.specs.Prelude.{◌≡◌, IfOk};
ghost use Rattle.order.specs.Refusals.{judge, answer_by};
ghost use Rattle.order.specs.Callers.{limits_of};
ghost use Rattle.estimate.specs.Estimate.{estimate_rows, least_at_lows, least_at_highs, first_met, order_met};
ghost use Rattle.estimate.specs.Told.{estimate_of, leasts_told, met_told, handed_out};

use estimate::between::least_between;
use estimate::met::order_between;
use estimate::{Estimate, Leasts};
use order::accept::accept_counts_for;
use order::{Caller, Order, Refusal};

pub fn least_between_for(caller: Caller, estimate: Estimate) -> Result<Leasts, Refusal>
    ensures { leasts_told result ≡ answer_by (judge (estimate_rows (limits_of caller) (estimate_of estimate)))
        (least_at_lows (estimate_of estimate), least_at_highs (estimate_of estimate)) }
{
    accept_counts_for(caller, estimate.order.processors, estimate.order.jobs)?;
    least_between(estimate)
}

pub fn order_between_for(
    caller: Caller,
    estimate: Estimate,
    number: i32,
) -> Result<Option<Order>, Refusal>
    ensures result_value { met_told result ≡ answer_by (judge (estimate_rows (limits_of caller) (estimate_of estimate)))
        (order_met (estimate_of estimate) number) }
    ensures order_value { IfOk result (λ met. met ≡ handed_out estimate.order (first_met (estimate_of estimate) number)) }
{
    accept_counts_for(caller, estimate.order.processors, estimate.order.jobs)?;
    order_between(estimate, number)
}
