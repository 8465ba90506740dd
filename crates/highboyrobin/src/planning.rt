// hbr_plan: a right plan at a bound, for the order of a file.
ghost use Rattle.std.specs.Prelude.{◌≡◌, [], length};
ghost use Rattle.order.specs.Refusals.{judge};
ghost use Rattle.order_file.specs.File.{order_in};
ghost use Rattle.highboyrobin.specs.Results.{result_of};
ghost use Rattle.highboyrobin.specs.Calls.{plan_call, PlanBy};

use super::answers::put_count;
use super::results::{SHORT_ANSWER, TOO_TIGHT, result_of};
use order_file::read::read_order;
use planner::NoPlan;
use planner::bound::plan_at;

#[tactic(auto, using(crate::proofs::Carried::reader_carries), unfolding(order::specs::Refusals::judge, crate::specs::Results::file_call))]
pub fn hbr_plan(file: &[u8], bound: i32, rows: &mut [u32], answer: &mut [i32]) -> u32
    ensures value { result ≡ result_of (judge (plan_call file.now bound (length rows.old)
        (length answer.old))) }
    ensures plan_by { PlanBy (judge (plan_call file.now bound (length rows.old) (length answer.old)))
        (order_in file.now) bound [] rows.old rows.new answer.old answer.new }
{
    if answer.len() < 1 {
        return SHORT_ANSWER;
    }
    let order = match read_order(file) {
        Ok(order) => order,
        Err(refusal) => return result_of(refusal),
    };
    match plan_at(order, bound, rows) {
        Ok(count) => {
            put_count(answer, count);
            0
        }
        Err(NoPlan::Refused(refusal)) => result_of(refusal),
        Err(NoPlan::TooTight(_, _)) => TOO_TIGHT,
    }
}
