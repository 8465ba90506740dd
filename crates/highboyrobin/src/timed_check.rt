// hbr_timed_check: whether lent rows are a right plan at a bound that keeps the ready minutes and windows, for the order of a file.
ghost use Rattle.std.specs.Prelude.{◌≡◌, length};
ghost use Rattle.order.specs.Refusals.{judge};
ghost use Rattle.highboyrobin.specs.Results.{result_of};
ghost use Rattle.highboyrobin.specs.TimedCalls.{timed_check_call, timed_check_answer};

use super::answers::put_count;
use super::results::result_of;
use super::timing::read_timed;
use timed::checking::check_timed;

pub fn hbr_timed_check(
    file: &[u8],
    bound: i32,
    ready: &[u32],
    windows: &[u32],
    rows: &[u32],
    answer: &mut [i32],
) -> u32
    ensures value { result ≡ result_of (judge (timed_check_call file.now bound ready.now windows.now
        (length rows.now) (length answer.old))) }
    ensures answer_after { answer.new ≡ timed_check_answer file.now bound ready.now windows.now
        rows.now answer.old }
{
    let (order, times) = match read_timed(file, ready, windows, answer.len()) {
        Ok(read) => read,
        Err(result) => return result,
    };
    match check_timed(order, bound, times, rows) {
        Ok(right) => {
            put_count(answer, u32::from(right));
            0
        }
        Err(refusal) => result_of(refusal),
    }
}
