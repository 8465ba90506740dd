// hbr_screen_sentence: hbr_sentence by a screen's limits.
ghost use Rattle.std.specs.Prelude.{◌≡◌, [], ◌∷◌, pos, length};
ghost use Rattle.order.specs.Refusals.{judge, left_by};
ghost use Rattle.highboyrobin.specs.Results.{result_of};
ghost use Rattle.highboyrobin.specs.Calls.{line_from, sentence_call};
ghost use Rattle.highboyrobin.specs.ScreenCalls.{screened};

use super::results::{SHORT_ANSWER, SHORT_REASON, result_of};
use super::sentencing::hbr_sentence;
use callers::files::accept_file_for;
use order::Caller;

#[tactic(auto, using(crate::proofs::Screening::trailer_carries), unfolding(order::specs::Refusals::judge, crate::specs::Results::list_call, order::specs::Callers::rows_by))]
pub fn hbr_screen_sentence(
    file: &[u8],
    bound: i32,
    reason: &[i32],
    line: &mut [u8],
    answer: &mut [i32],
) -> u32
    ensures value { result ≡ result_of (judge (screened file.now
        (sentence_call file.now bound reason.now (length line.old) (length answer.old)))) }
    ensures line_after { line.new ≡ left_by (judge (screened file.now
        (sentence_call file.now bound reason.now (length line.old) (length answer.old))))
        (line_from file.now bound reason.now) line.old }
    ensures answer_after { answer.new ≡ left_by (judge (screened file.now
        (sentence_call file.now bound reason.now (length line.old) (length answer.old))))
        (pos (length (line_from file.now bound reason.now)) ∷ []) answer.old }
{
    if answer.len() < 1 {
        return SHORT_ANSWER;
    }
    if reason.len() < 19 {
        return SHORT_REASON;
    }
    if let Err(refusal) = accept_file_for(Caller::Screen, file) {
        return result_of(refusal);
    }
    hbr_sentence(file, bound, reason, line, answer)
}
