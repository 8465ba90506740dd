// hbr_between: the least lateness of the order of a file at its times, the lows, and at the highs beside it.
ghost use Rattle.std.specs.Prelude.{◌≡◌, length};
ghost use Rattle.order.specs.Refusals.{judge, left_by};
ghost use Rattle.highboyrobin.specs.BetweenCalls.{leasts_call, leasts_in};
ghost use Rattle.highboyrobin.specs.Results.{result_of};

use super::answers::put_two;
use super::estimating::read_estimate;
use super::results::result_of;
use estimate::between::least_between;

pub fn hbr_between(file: &[u8], highs: &[u32], answer: &mut [i32]) -> u32
    ensures value { result ≡ result_of (judge (leasts_call file.now highs.now (length answer.old))) }
    ensures answer_after { answer.new
        ≡ left_by (judge (leasts_call file.now highs.now (length answer.old)))
        (leasts_in file.now highs.now) answer.old }
{
    let estimate = match read_estimate(file, highs, answer.len(), 2) {
        Ok(estimate) => estimate,
        Err(result) => return result,
    };
    match least_between(estimate) {
        Ok(leasts) => {
            put_two(answer, leasts.low, leasts.high);
            0
        }
        Err(refusal) => result_of(refusal),
    }
}
