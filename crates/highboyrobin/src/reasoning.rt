// hbr_reason: why a bound is too tight for the order of a file, or that it is not.
ghost use Rattle.std.specs.Prelude.{◌≡◌, length};
ghost use Rattle.order.specs.Refusals.{judge};
ghost use Rattle.highboyrobin.specs.Results.{result_of};
ghost use Rattle.highboyrobin.specs.Calls.{reason_call, reason_answer};

use super::answers::put_reason;
use super::results::{SHORT_ANSWER, result_of};
use order::Refusal;
use order::deadline::bound_in_range;
use order_file::read::read_order;
use reason::tell::reason_at;

#[tactic(auto, using(crate::proofs::Carried::reader_carries), unfolding(order::specs::Refusals::judge, crate::specs::Results::file_call))]
pub fn hbr_reason(file: &[u8], bound: i32, answer: &mut [i32]) -> u32
    ensures value { result ≡ result_of (judge (reason_call file.now bound (length answer.old))) }
    ensures answer_after { answer.new ≡ reason_answer file.now bound answer.old }
{
    if answer.len() < 19 {
        return SHORT_ANSWER;
    }
    let order = match read_order(file) {
        Ok(order) => order,
        Err(refusal) => return result_of(refusal),
    };
    if !bound_in_range(bound) {
        return result_of(Refusal::BoundOutOfRange);
    }
    put_reason(answer, reason_at(order, bound));
    0
}
