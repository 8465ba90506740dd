// The order of a file and the times lent beside it, for the calls with ready minutes and windows. All serve this crate alone.
ghost use Rattle.std.specs.Prelude.{◌≡◌, ℕ, ◌+◌, ◌*◌, ◌≤◌, get_or};
ghost use Rattle.sums.specs.Lists.{tabulate};
ghost use Rattle.order.specs.Refusals.{limits, judge, order_rows};
ghost use Rattle.order_file.specs.File.{order_in};
ghost use Rattle.highboyrobin.specs.TimedCalls.{times_from, timed_call, ReadBy};

use super::lists::{by_job, column_of};
use super::results::{BAD_FILE, SHORT_ANSWER, WRONG_TIMES, result_of};
use order::Order;
use order_file::read::{read_order, read_trailer};
use timed::Times;

// The times of lent lists.
fn times_from(ready: &[u32], windows: &[u32]) -> Times
    ensures { result ≡ times_from ready.now windows.now }
{
    Times {
        ready: by_job(ready),
        opens: column_of(windows, 2, 0),
        closes: column_of(windows, 2, 1),
    }
}

// The order of a file and the times: an answer of so many numbers that is too short, 12, lists that are not as long as the file's counts,
// then the rows of acceptance.
#[tactic(auto, using(crate::proofs::Carried::reader_carries), unfolding(order::specs::Refusals::judge, crate::specs::TimedCalls::timed_call))]
pub fn read_timed(
    file: &[u8],
    ready: &[u32],
    windows: &[u32],
    lent: usize,
) -> Result<(Order, Times), u32>
    ensures { ReadBy (judge (timed_call lent file.now ready.now windows.now
        (order_rows limits (order_in file.now)))) file.now ready.now windows.now result }
{
    if lent < 1 {
        return Err(SHORT_ANSWER);
    }
    let lists = read_trailer(file).ok_or(BAD_FILE)?;
    if ready.len() != lists.jobs || windows.len() != 2 * lists.processors {
        return Err(WRONG_TIMES);
    }
    match read_order(file) {
        Ok(order) => Ok((order, times_from(ready, windows))),
        Err(refusal) => Err(result_of(refusal)),
    }
}
