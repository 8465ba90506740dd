// hbr_timed_plan: a right plan at a bound that keeps the ready minutes and windows, for the order of a file.
ghost use Rattle.std.specs.Prelude.{◌≡◌, length};
ghost use Rattle.order.specs.Refusals.{judge};
ghost use Rattle.order_file.specs.File.{order_in};
ghost use Rattle.highboyrobin.specs.Results.{result_of};
ghost use Rattle.highboyrobin.specs.TimedCalls.{times_in, timed_plan_call, TimedPlanBy};

use super::answers::put_count;
use super::results::{TOO_TIGHT, result_of};
use super::timing::read_timed;
use timed::planning::plan_timed;

pub fn hbr_timed_plan(
    file: &[u8],
    bound: i32,
    ready: &[u32],
    windows: &[u32],
    rows: &mut [u32],
    answer: &mut [i32],
) -> u32
    ensures value { result ≡ result_of (judge (timed_plan_call file.now bound ready.now windows.now
        (length rows.old) (length answer.old))) }
    ensures timed_plan_by { TimedPlanBy (judge (timed_plan_call file.now bound ready.now windows.now
        (length rows.old) (length answer.old))) (order_in file.now) bound
        (times_in ready.now windows.now)
        rows.old rows.new answer.old answer.new }
{
    let (order, times) = match read_timed(file, ready, windows, answer.len()) {
        Ok(read) => read,
        Err(result) => return result,
    };
    match plan_timed(order, bound, times, rows) {
        Ok(Some(count)) => {
            put_count(answer, count);
            0
        }
        Ok(None) => TOO_TIGHT,
        Err(refusal) => result_of(refusal),
    }
}
