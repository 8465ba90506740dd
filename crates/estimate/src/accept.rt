// Acceptance of an estimate: rows 1 to 4, 5 for a low or a high, 6, 13, 19 and 7. All serve this crate alone; the searches through the
// jobs have a `requires`.
ghost use Rattle.std.specs.Prelude.{◌≡◌, not, ◌&&◌, ◌≤◌, ltb};
ghost use Rattle.order.specs.Refusals.{judge, limits, first, time_in_range, due_in_range, maker_in_range, fits_some};
ghost use Rattle.order.specs.Table.{acceptance_told, finding};
ghost use Rattle.estimate.specs.Estimate.{EstimatedJob, estimated_rows, estimate_rows};
ghost use Rattle.estimate.specs.Told.{estimate_of};

use super::Estimate;
use order::Refusal;
use order::accept::{accept_counts, first_bad_due, first_bad_maker, first_number, first_unfit};

fn time_in_range(time: u32) -> bool
    ensures { result ≡ time_in_range time }
{
    1 <= time && time <= 100000
}

fn both_in_range(low: u32, high: u32) -> bool
    ensures { result ≡ (time_in_range low && time_in_range high) }
{
    time_in_range(low) && time_in_range(high)
}

// The first job whose low or high is not in the time's range.
fn first_bad_end(estimate: Estimate) -> Option<u32>
    requires { estimate.order.jobs ≤ 48 }
    ensures { finding result
        ≡ first (λ (job : EstimatedJob). not (time_in_range job.low && time_in_range job.high)) (estimate_of estimate).jobs }
{
    first_number(
        estimate.order.jobs,
        |j| !both_in_range(estimate.order.times[j], estimate.highs[j]),
    )
}

// The first job whose low is above its high.
fn first_crossed(estimate: Estimate) -> Option<u32>
    requires { estimate.order.jobs ≤ 48 }
    ensures { finding result ≡ first (λ (job : EstimatedJob). ltb job.high job.low) (estimate_of estimate).jobs }
{
    first_number(
        estimate.order.jobs,
        |j| estimate.highs[j] < estimate.order.times[j],
    )
}

// Rows 5, 6, 13, 19 and 7 of the table, the rows of the jobs.
#[tactic(auto, using(crate::proofs::Judging::due_same, crate::proofs::Judging::maker_same, crate::proofs::Judging::need_same), unfolding(order::specs::Refusals::judge))]
fn accept_jobs(estimate: Estimate) -> Result<(), Refusal>
    requires { (estimate.order.processors ≤ 16) × (estimate.order.jobs ≤ 48) }
    ensures { acceptance_told result ≡ judge (estimated_rows (estimate_of estimate)) }
{
    if let Some(job) = first_bad_end(estimate) {
        return Err(Refusal::TimeOutOfRange(job));
    }
    if let Some(job) = first_bad_due(estimate.order) {
        return Err(Refusal::DueOutOfRange(job));
    }
    if let Some(job) = first_bad_maker(estimate.order) {
        return Err(Refusal::MakerOutOfRange(job));
    }
    if let Some(job) = first_crossed(estimate) {
        return Err(Refusal::LowAboveHigh(job));
    }
    if let Some(job) = first_unfit(estimate.order) {
        return Err(Refusal::FitsNoProcessor(job));
    }
    Ok(())
}

// Rows 1 to 4, 5, 6, 13, 19 and 7 of the table, in this order.
#[tactic(auto, using(crate::proofs::Judging::rows_are), unfolding(order::specs::Refusals::judge))]
pub fn accept_estimate(estimate: Estimate) -> Result<(), Refusal>
    ensures { acceptance_told result ≡ judge (estimate_rows limits (estimate_of estimate)) }
{
    accept_counts(estimate.order.processors, estimate.order.jobs)?;
    accept_jobs(estimate)
}
