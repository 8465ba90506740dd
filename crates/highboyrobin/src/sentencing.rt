// hbr_sentence: the line of a reason, for the order of a file and a bound.
ghost use Rattle.std.specs.Prelude.{◌≡◌, [], ◌∷◌, pos, length};
ghost use Rattle.order.specs.Refusals.{judge, left_by};
ghost use Rattle.highboyrobin.specs.Results.{result_of};
ghost use Rattle.highboyrobin.specs.Calls.{line_from, sentence_call};

use super::answers::put_count;
use super::handing::why_from;
use super::results::{SHORT_ANSWER, SHORT_REASON, result_of};
use order_file::read::read_order;
use sentence::compose::compose;

#[tactic(auto, using(crate::proofs::Carried::reader_carries), unfolding(order::specs::Refusals::judge, crate::specs::Results::list_call))]
pub fn hbr_sentence(
    file: &[u8],
    bound: i32,
    reason: &[i32],
    line: &mut [u8],
    answer: &mut [i32],
) -> u32
    ensures value { result ≡ result_of (judge (sentence_call file.now bound reason.now (length line.old)
        (length answer.old))) }
    ensures line_after { line.new ≡ left_by (judge (sentence_call file.now bound reason.now
        (length line.old) (length answer.old))) (line_from file.now bound reason.now)
        line.old }
    ensures answer_after { answer.new ≡ left_by (judge (sentence_call file.now bound reason.now
        (length line.old) (length answer.old)))
        (pos (length (line_from file.now bound reason.now)) ∷ []) answer.old }
{
    if answer.len() < 1 {
        return SHORT_ANSWER;
    }
    if reason.len() < 19 {
        return SHORT_REASON;
    }
    let order = match read_order(file) {
        Ok(order) => order,
        Err(refusal) => return result_of(refusal),
    };
    match compose(order, bound, why_from(reason), line) {
        Ok(n) => {
            put_count(answer, n);
            0
        }
        Err(refusal) => result_of(refusal),
    }
}
