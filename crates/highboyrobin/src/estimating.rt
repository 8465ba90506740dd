// The estimate of a file and the highs lent beside it, for the two calls with times between. All serve this crate alone.
ghost use Rattle.std.specs.Prelude.{◌≡◌};
ghost use Rattle.order.specs.Order.{processor_count, job_count};
ghost use Rattle.order.specs.Refusals.{limits, judge, count_rows};
ghost use Rattle.order_file.specs.File.{order_in};
ghost use Rattle.highboyrobin.specs.BetweenCalls.{between_call, EstimateBy};

use super::lists::by_job;
use super::results::{BAD_FILE, SHORT_ANSWER, WRONG_HIGHS, result_of};
use estimate::Estimate;
use order_file::read::{read_counted, read_trailer};

// The estimate: an answer of fewer numbers than asked for, 12, highs that are not as long as the file's jobs, then the rows of the counts.
#[tactic(auto, unfolding(order::specs::Refusals::judge, crate::specs::BetweenCalls::between_call))]
pub fn read_estimate(file: &[u8], highs: &[u32], lent: usize, asked: usize) -> Result<Estimate, u32>
    ensures { EstimateBy (judge (between_call lent asked file.now highs.now
        (count_rows limits (processor_count (order_in file.now)) (job_count (order_in file.now)))))
        file.now highs.now result }
{
    if lent < asked {
        return Err(SHORT_ANSWER);
    }
    let lists = read_trailer(file).ok_or(BAD_FILE)?;
    if highs.len() != lists.jobs {
        return Err(WRONG_HIGHS);
    }
    match read_counted(file, lists) {
        Ok(order) => Ok(Estimate {
            order,
            highs: by_job(highs),
        }),
        Err(refusal) => Err(result_of(refusal)),
    }
}
