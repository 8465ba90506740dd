// hbr_screen_reason: hbr_reason by a screen's limits.
ghost use Rattle.std.specs.Prelude.{◌≡◌, length};
ghost use Rattle.order.specs.Refusals.{judge, left_by};
ghost use Rattle.order_file.specs.File.{order_in};
ghost use Rattle.profile.specs.Search.{reason_of};
ghost use Rattle.highboyrobin.specs.Results.{result_of};
ghost use Rattle.highboyrobin.specs.Calls.{reason_call, reason_numbers};
ghost use Rattle.highboyrobin.specs.ScreenCalls.{screened};

use super::reasoning::hbr_reason;
use super::results::{SHORT_ANSWER, result_of};
use callers::files::accept_file_for;
use order::Caller;

#[tactic(auto, using(crate::proofs::Screening::trailer_carries), unfolding(order::specs::Refusals::judge, crate::specs::Results::file_call, order::specs::Callers::rows_by))]
pub fn hbr_screen_reason(file: &[u8], bound: i32, answer: &mut [i32]) -> u32
    ensures value { result ≡ result_of (judge (screened file.now
        (reason_call file.now bound (length answer.old)))) }
    ensures answer_after { answer.new ≡ left_by (judge (screened file.now
        (reason_call file.now bound (length answer.old))))
        (reason_numbers (order_in file.now) (reason_of (order_in file.now) bound)) answer.old }
{
    if answer.len() < 19 {
        return SHORT_ANSWER;
    }
    if let Err(refusal) = accept_file_for(Caller::Screen, file) {
        return result_of(refusal);
    }
    hbr_reason(file, bound, answer)
}
