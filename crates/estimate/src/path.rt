// The orders on the path from all lows to all highs, each made without walking there, and their least lateness. All serve this crate
// alone and have a `requires`.
ghost use Rattle.std.specs.Prelude.{◌≡◌, ◌≤◌};
ghost use Rattle.sums.specs.Sum.{sum};
ghost use Rattle.order.specs.Refusals.{limits, accepted, judge};
ghost use Rattle.estimate.specs.Estimate.{path_at, path_length, estimate_rows};
ghost use Rattle.estimate.specs.Inside.{width_at, Spans, array_after};
ghost use Rattle.estimate.specs.Request.{least_along};
ghost use Rattle.estimate.specs.Told.{estimate_of, with_times};

use super::Estimate;
use order::Order;
use reason::tell::least_in;
use table::making::table_of;

// How many minutes n jobs go up in all.
fn minutes_between(lows: [u32; 48], highs: [u32; 48], n: usize) -> u32
    requires { Spans lows highs n }
    ensures { result ≡ sum n (width_at lows highs) }
{
    let mut minutes = 0;
    for j in 0..n {
        minutes += highs[j] - lows[j];
    }
    minutes
}

// The times of n jobs after k minutes: each takes what is left of them, up to its high; 0 beyond.
fn times_after(lows: [u32; 48], highs: [u32; 48], n: usize, k: u32) -> [u32; 48]
    requires { Spans lows highs n }
    ensures { result ≡ array_after lows highs n k }
{
    let mut out = [0u32; 48];
    let mut left = k;
    for j in 0..n {
        let more = left.min(highs[j] - lows[j]);
        out[j] = lows[j] + more;
        left -= more;
    }
    out
}

// How many minutes the path has.
pub fn path_length(estimate: Estimate) -> u32
    requires { judge (estimate_rows limits (estimate_of estimate)) ≡ accepted }
    ensures { (result ≡ path_length (estimate_of estimate)) × (result ≤ 4799952) }
{
    let lows = estimate.order.times;
    let highs = estimate.highs;
    minutes_between(lows, highs, estimate.order.jobs as usize)
}

// The order after k minutes of the path.
pub fn order_after(estimate: Estimate, k: u32) -> Order
    requires { judge (estimate_rows limits (estimate_of estimate)) ≡ accepted }
    ensures { result ≡ with_times estimate.order (path_at (estimate_of estimate) k) }
{
    let order = estimate.order;
    let memories = order.memories;
    let lows = order.times;
    let highs = estimate.highs;
    let dues = order.dues;
    let needs = order.needs;
    let makers = order.makers;
    Order {
        processors: order.processors,
        memories,
        jobs: order.jobs,
        times: times_after(lows, highs, order.jobs as usize, k),
        dues,
        needs,
        makers,
    }
}

// Its least lateness.
pub fn least_after(estimate: Estimate, k: u32) -> i32
    requires { judge (estimate_rows limits (estimate_of estimate)) ≡ accepted }
    ensures { result ≡ least_along (estimate_of estimate) k }
{
    least_in(table_of(order_after(estimate, k)))
}
