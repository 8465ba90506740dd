// hbr_judge: an order file is judged, and the sizes of its order are answered.
ghost use Rattle.std.specs.Prelude.{◌≡◌, length};
ghost use Rattle.order.specs.Refusals.{judge, left_by};
ghost use Rattle.order_file.specs.File.{order_in};
ghost use Rattle.highboyrobin.specs.Results.{result_of};
ghost use Rattle.highboyrobin.specs.Calls.{judge_call, sizes_of};

use super::answers::put_sizes;
use super::results::{SHORT_ANSWER, result_of};
use order_file::read::read_order;

#[tactic(auto, using(crate::proofs::Carried::reader_carries, crate::proofs::Calling::read_accepted), unfolding(order::specs::Refusals::judge, crate::specs::Results::file_call))]
pub fn hbr_judge(file: &[u8], answer: &mut [i32]) -> u32
    ensures value { result ≡ result_of (judge (judge_call file.now (length answer.old))) }
    ensures answer_after { answer.new ≡ left_by (judge (judge_call file.now (length answer.old)))
        (sizes_of (order_in file.now)) answer.old }
{
    if answer.len() < 3 {
        return SHORT_ANSWER;
    }
    let order = match read_order(file) {
        Ok(order) => order,
        Err(refusal) => return result_of(refusal),
    };
    put_sizes(answer, order);
    0
}
