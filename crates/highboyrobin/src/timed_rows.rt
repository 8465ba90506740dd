// hbr_timed_rows: how many rows hbr_timed_plan asks to be lent at a bound.
ghost use Rattle.std.specs.Prelude.{◌≡◌, length};
ghost use Rattle.order.specs.Refusals.{judge};
ghost use Rattle.highboyrobin.specs.Results.{result_of};
ghost use Rattle.highboyrobin.specs.TimedCalls.{timed_rows_call, timed_rows_answer};

use super::answers::put_count;
use super::results::result_of;
use super::timing::read_timed;
use timed::asking::rows_timed;

pub fn hbr_timed_rows(
    file: &[u8],
    bound: i32,
    ready: &[u32],
    windows: &[u32],
    answer: &mut [i32],
) -> u32
    ensures value { result ≡ result_of (judge (timed_rows_call file.now bound ready.now windows.now
        (length answer.old))) }
    ensures answer_after { answer.new ≡ timed_rows_answer file.now bound ready.now windows.now
        answer.old }
{
    let (order, times) = match read_timed(file, ready, windows, answer.len()) {
        Ok(read) => read,
        Err(result) => return result,
    };
    match rows_timed(order, bound, times) {
        Ok(rows) => {
            put_count(answer, rows);
            0
        }
        Err(refusal) => result_of(refusal),
    }
}
