// The least lateness at all lows and at all highs: the refusals of an estimate; else the two numbers. Every order with times between has
// its least lateness between them.
ghost use Rattle.std.specs.Prelude.{◌≡◌};
ghost use Rattle.order.specs.Refusals.{judge, answer_by, limits};
ghost use Rattle.estimate.specs.Estimate.{estimate_rows, least_at_lows, least_at_highs};
ghost use Rattle.estimate.specs.Told.{estimate_of, leasts_told};

use super::accept::accept_estimate;
use super::path::{least_after, path_length};
use super::{Estimate, Leasts};
use order::Refusal;

pub fn least_between(estimate: Estimate) -> Result<Leasts, Refusal>
    ensures { leasts_told result ≡ answer_by (judge (estimate_rows limits (estimate_of estimate)))
        (least_at_lows (estimate_of estimate), least_at_highs (estimate_of estimate)) }
{
    accept_estimate(estimate)?;
    Ok(Leasts {
        low: least_after(estimate, 0),
        high: least_after(estimate, path_length(estimate)),
    })
}
