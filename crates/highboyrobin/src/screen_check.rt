// hbr_screen_check: hbr_check by a screen's limits.
ghost use Rattle.std.specs.Prelude.{◌≡◌, length};
ghost use Rattle.order.specs.Refusals.{judge, left_by};
ghost use Rattle.order_file.specs.File.{order_in};
ghost use Rattle.plan.specs.Check.{is_right};
ghost use Rattle.highboyrobin.specs.Results.{result_of};
ghost use Rattle.highboyrobin.specs.Calls.{check_call, yes_or_no};
ghost use Rattle.highboyrobin.specs.ScreenCalls.{screened};

use super::checking::hbr_check;
use super::results::{SHORT_ANSWER, result_of};
use callers::files::accept_file_for;
use order::Caller;

// Not inlined into its export, which would keep numbers below the stack pointer: link/highboyrobin.h says that no call does.
#[tactic(auto, using(crate::proofs::Screening::trailer_carries), unfolding(order::specs::Refusals::judge, crate::specs::Results::file_call, order::specs::Callers::rows_by))]
#[inline(never)]
pub fn hbr_screen_check(file: &[u8], bound: i32, rows: &[u32], answer: &mut [i32]) -> u32
    ensures value { result ≡ result_of (judge (screened file.now
        (check_call file.now bound (length rows.now) (length answer.old)))) }
    ensures answer_after { answer.new ≡ left_by (judge (screened file.now
        (check_call file.now bound (length rows.now) (length answer.old))))
        (yes_or_no (is_right (order_in file.now) bound rows.now)) answer.old }
{
    if answer.len() < 1 {
        return SHORT_ANSWER;
    }
    if let Err(refusal) = accept_file_for(Caller::Screen, file) {
        return result_of(refusal);
    }
    hbr_check(file, bound, rows, answer)
}
