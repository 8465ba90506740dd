// Acceptance of an order: refusals 1 to 7 and 13, for every entry point; of the counts by a screen's limits too. `first_bad_time`,
// `first_bad_due`, `first_bad_maker` and `first_unfit` serve `accept`, the last three the acceptance of an estimate too; all four have a
// `requires`.
ghost use Rattle.std.specs.Prelude.{◌≡◌, ℕ, ◌≤◌, ◌<◌, Bool, not, leb};
ghost use Rattle.std.specs.List.{list_any};
ghost use Rattle.sums.specs.Lists.{tabulate};
ghost use Rattle.order.specs.Order.{Job};
ghost use Rattle.order.specs.Refusals.{judge, count_rows, order_rows, job_rows, limits, first, time_in_range, due_in_range, maker_in_range, fits_some};
ghost use Rattle.order.specs.Table.{order_of, acceptance_told, finding};
ghost use Rattle.order.specs.Callers.{limits_of};

use super::callers::{most_jobs, most_processors};
use super::{Caller, MOST_MAKERS, Order, Refusal};

// Rows 1 to 4 of the table by the caller's limits, on the counts alone.
#[tactic(auto, unfolding(crate::specs::Refusals::judge))]
pub fn accept_counts_for(caller: Caller, processors: u32, jobs: u32) -> Result<(), Refusal>
    ensures { acceptance_told result ≡ judge (count_rows (limits_of caller) processors jobs) }
{
    if processors == 0 {
        return Err(Refusal::NoProcessor);
    }
    if most_processors(caller) < processors {
        return Err(Refusal::TooManyProcessors(caller));
    }
    if jobs == 0 {
        return Err(Refusal::NoJob);
    }
    if most_jobs(caller) < jobs {
        return Err(Refusal::TooManyJobs(caller));
    }
    Ok(())
}

// The same for a dock.
pub fn accept_counts(processors: u32, jobs: u32) -> Result<(), Refusal>
    ensures { acceptance_told result ≡ judge (count_rows limits processors jobs) }
{
    accept_counts_for(Caller::Dock, processors, jobs)
}

// The first of n jobs or processors that a test finds, by its number.
pub fn first_number<F: Fn(usize) -> bool>(n: u32, test: F) -> Option<u32>
    requires { (j : ℕ) → j < n → F.pre test j }
    ensures { (P : ℕ → Bool) → ((j : ℕ) (b : Bool) → j < n → F.post test j b → b ≡ P j)
        → finding result ≡ first P (tabulate n (λ j. j)) }
{
    for j in 0..n {
        if test(j as usize) {
            return Some(j + 1);
        }
    }
    None
}

fn time_in_range(time: u32) -> bool
    ensures { result ≡ time_in_range time }
{
    1 <= time && time <= 100000
}

// The first job whose time is not in range.
fn first_bad_time(order: Order) -> Option<u32>
    requires { order.jobs ≤ 48 }
    ensures { finding result ≡ first (λ (job : Job). not (time_in_range job.time)) (order_of order).jobs }
{
    first_number(order.jobs, |j| !time_in_range(order.times[j]))
}

fn due_in_range(due: i32) -> bool
    ensures { result ≡ due_in_range due }
{
    -1000000 <= due && due <= 1000000
}

// The first job whose due time is not in range.
pub fn first_bad_due(order: Order) -> Option<u32>
    requires { order.jobs ≤ 48 }
    ensures { finding result ≡ first (λ (job : Job). not (due_in_range job.due)) (order_of order).jobs }
{
    first_number(order.jobs, |j| !due_in_range(order.dues[j]))
}

fn maker_in_range(maker: u32) -> bool
    ensures { result ≡ maker_in_range maker }
{
    1 <= maker && maker <= MOST_MAKERS
}

// The first job whose maker number is not in range.
pub fn first_bad_maker(order: Order) -> Option<u32>
    requires { order.jobs ≤ 48 }
    ensures { finding result ≡ first (λ (job : Job). not (maker_in_range job.maker)) (order_of order).jobs }
{
    first_number(order.jobs, |j| !maker_in_range(order.makers[j]))
}

// Whether some one of the memories is at least the need.
fn fits_some(memories: &[u32], need: u32) -> bool
    ensures { result ≡ list_any (λ m. leb need m) memories.now }
{
    memories.iter().any(|memory| need <= *memory)
}

// The first job that fits no processor.
pub fn first_unfit(order: Order) -> Option<u32>
    requires { (order.processors ≤ 16) × (order.jobs ≤ 48) }
    ensures { finding result ≡ first (λ (job : Job). not (fits_some job.need (order_of order).memories)) (order_of order).jobs }
{
    let memories = &order.memories[..order.processors as usize];
    first_number(order.jobs, |j| !fits_some(memories, order.needs[j]))
}

// Rows 5, 6, 13 and 7 of the table, the rows of the jobs.
#[tactic(auto, unfolding(crate::specs::Refusals::judge))]
fn accept_jobs(order: Order) -> Result<(), Refusal>
    requires { (order.processors ≤ 16) × (order.jobs ≤ 48) }
    ensures { acceptance_told result ≡ judge (job_rows (order_of order)) }
{
    if let Some(job) = first_bad_time(order) {
        return Err(Refusal::TimeOutOfRange(job));
    }
    if let Some(job) = first_bad_due(order) {
        return Err(Refusal::DueOutOfRange(job));
    }
    if let Some(job) = first_bad_maker(order) {
        return Err(Refusal::MakerOutOfRange(job));
    }
    if let Some(job) = first_unfit(order) {
        return Err(Refusal::FitsNoProcessor(job));
    }
    Ok(())
}

// Rows 1 to 7 and 13 of the table, 13 right after 6.
pub fn accept(order: Order) -> Result<(), Refusal>
    ensures { acceptance_told result ≡ judge (order_rows limits (order_of order)) }
{
    accept_counts(order.processors, order.jobs)?;
    accept_jobs(order)
}
