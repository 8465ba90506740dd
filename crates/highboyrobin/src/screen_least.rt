// hbr_screen_least: hbr_least by a screen's limits.
ghost use Rattle.std.specs.Prelude.{◌≡◌, [], ◌∷◌, length};
ghost use Rattle.order.specs.Refusals.{judge};
ghost use Rattle.order_file.specs.File.{order_in};
ghost use Rattle.profile.specs.Least.{least_lateness};
ghost use Rattle.highboyrobin.specs.Results.{result_of};
ghost use Rattle.highboyrobin.specs.Calls.{least_call, PlanBy};
ghost use Rattle.highboyrobin.specs.ScreenCalls.{screened};

use super::lateness::hbr_least;
use super::results::{SHORT_ANSWER, result_of};
use callers::files::accept_file_for;
use order::Caller;

// Not inlined into its export, which would keep numbers below the stack pointer: link/highboyrobin.h says that no call does.
#[tactic(auto, using(crate::proofs::Screening::trailer_carries), unfolding(order::specs::Refusals::judge, crate::specs::Results::file_call, order::specs::Callers::rows_by))]
#[inline(never)]
pub fn hbr_screen_least(file: &[u8], rows: &mut [u32], answer: &mut [i32]) -> u32
    ensures value { result ≡ result_of (judge (screened file.now
        (least_call file.now (length rows.old) (length answer.old)))) }
    ensures plan_by { PlanBy (judge (screened file.now
        (least_call file.now (length rows.old) (length answer.old))))
        (order_in file.now) (least_lateness (order_in file.now)) (least_lateness (order_in file.now) ∷ [])
        rows.old rows.new answer.old answer.new }
{
    if answer.len() < 2 {
        return SHORT_ANSWER;
    }
    if let Err(refusal) = accept_file_for(Caller::Screen, file) {
        return result_of(refusal);
    }
    hbr_least(file, rows, answer)
}
