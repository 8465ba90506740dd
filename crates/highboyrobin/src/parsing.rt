// hbr_parse: the reason of a line, for the order of a file and a bound, or that there is none.
ghost use Rattle.std.specs.Prelude.{◌≡◌, length};
ghost use Rattle.order.specs.Refusals.{judge};
ghost use Rattle.highboyrobin.specs.Results.{result_of};
ghost use Rattle.highboyrobin.specs.Calls.{parse_call, parse_answer};

use super::answers::put_reason;
use super::results::{SHORT_ANSWER, result_of};
use order_file::read::read_order;
use sentence::recover::read_back;

#[tactic(auto, using(crate::proofs::Carried::reader_carries), unfolding(order::specs::Refusals::judge, crate::specs::Results::file_call))]
pub fn hbr_parse(file: &[u8], bound: i32, line: &[u8], answer: &mut [i32]) -> u32
    ensures value { result ≡ result_of (judge (parse_call file.now bound (length answer.old))) }
    ensures answer_after { answer.new ≡ parse_answer file.now bound line.now answer.old }
{
    if answer.len() < 19 {
        return SHORT_ANSWER;
    }
    let order = match read_order(file) {
        Ok(order) => order,
        Err(refusal) => return result_of(refusal),
    };
    match read_back(order, bound, line) {
        Ok(why) => {
            put_reason(answer, why);
            0
        }
        Err(refusal) => result_of(refusal),
    }
}
