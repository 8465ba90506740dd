// hbr_check: whether lent rows are a right plan at a bound, for the order of a file.
ghost use Rattle.std.specs.Prelude.{◌≡◌, length};
ghost use Rattle.order.specs.Refusals.{judge};
ghost use Rattle.highboyrobin.specs.Results.{result_of};
ghost use Rattle.highboyrobin.specs.Calls.{check_call, check_answer};

use super::answers::put_count;
use super::results::{SHORT_ANSWER, result_of};
use order_file::read::read_order;
use plan::check::check_plan;

#[tactic(auto, using(crate::proofs::Carried::reader_carries), unfolding(order::specs::Refusals::judge, crate::specs::Results::file_call))]
pub fn hbr_check(file: &[u8], bound: i32, rows: &[u32], answer: &mut [i32]) -> u32
    ensures value { result ≡ result_of (judge (check_call file.now bound (length rows.now)
        (length answer.old))) }
    ensures answer_after { answer.new ≡ check_answer file.now bound rows.now answer.old }
{
    if answer.len() < 1 {
        return SHORT_ANSWER;
    }
    let order = match read_order(file) {
        Ok(order) => order,
        Err(refusal) => return result_of(refusal),
    };
    match check_plan(order, bound, rows) {
        Ok(right) => {
            put_count(answer, u32::from(right));
            0
        }
        Err(refusal) => result_of(refusal),
    }
}
