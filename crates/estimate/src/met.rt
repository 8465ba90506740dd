// The order for a number: the refusals of an estimate; else the first order met on the path whose least lateness is the number, or none.
// The path is not walked: the least lateness never falls on it, so that the place is found by halving. `first_reached` serves
// `order_between` alone and has a `requires`.
ghost use Rattle.std.specs.Prelude.{◌≡◌, ℕ, ◌<◌, ◌≤◌, ◌≤ℤ◌, ◌<ℤ◌, IfOk};
ghost use Rattle.order.specs.Refusals.{judge, accepted, answer_by, limits};
ghost use Rattle.estimate.specs.Estimate.{estimate_rows, first_met, order_met};
ghost use Rattle.estimate.specs.Request.{least_along};
ghost use Rattle.estimate.specs.Told.{estimate_of, met_told, handed_out};

use super::Estimate;
use super::accept::accept_estimate;
use super::path::{least_after, order_after, path_length};
use order::{Order, Refusal};

// After how many minutes, of this many at most, the least lateness is first at least the number.
fn first_reached(estimate: Estimate, number: i32, last: u32) -> u32
    requires estimate_value { judge (estimate_rows limits (estimate_of estimate)) ≡ accepted }
    requires last_bound { (last ≤ 4799952) × (number ≤ℤ least_along (estimate_of estimate) last) }
    ensures { (result ≤ last) × (number ≤ℤ least_along (estimate_of estimate) result)
        × ((i : ℕ) → i < result → least_along (estimate_of estimate) i <ℤ number) }
{
    let mut low: u32 = 0;
    let mut high = last;
    while low < high {
        let middle = low + (high - low) / 2;
        if least_after(estimate, middle) < number {
            low = middle + 1;
        } else {
            high = middle;
        }
    }
    high
}

pub fn order_between(estimate: Estimate, number: i32) -> Result<Option<Order>, Refusal>
    ensures result_value { met_told result ≡ answer_by (judge (estimate_rows limits (estimate_of estimate))) (order_met (estimate_of estimate) number) }
    ensures order_value { IfOk result (λ met. met ≡ handed_out estimate.order (first_met (estimate_of estimate) number)) }
{
    accept_estimate(estimate)?;
    let last = path_length(estimate);
    if number < least_after(estimate, 0) || least_after(estimate, last) < number {
        return Ok(None);
    }
    Ok(Some(order_after(estimate, first_reached(estimate, number, last))))
}
