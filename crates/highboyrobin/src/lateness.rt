// hbr_least: the least lateness of the order of a file, with a right plan at it.
ghost use Rattle.std.specs.Prelude.{◌≡◌, [], ◌∷◌, length};
ghost use Rattle.order.specs.Refusals.{judge};
ghost use Rattle.order_file.specs.File.{order_in};
ghost use Rattle.profile.specs.Least.{least_lateness};
ghost use Rattle.highboyrobin.specs.Results.{result_of};
ghost use Rattle.highboyrobin.specs.Calls.{least_call, PlanBy};

use super::answers::put_least;
use super::results::{SHORT_ANSWER, result_of};
use order_file::read::read_order;
use planner::lateness::least_lateness;

#[tactic(auto, using(crate::proofs::Carried::reader_carries), unfolding(order::specs::Refusals::judge, crate::specs::Results::file_call))]
pub fn hbr_least(file: &[u8], rows: &mut [u32], answer: &mut [i32]) -> u32
    ensures value { result ≡ result_of (judge (least_call file.now (length rows.old) (length answer.old))) }
    ensures plan_by { PlanBy (judge (least_call file.now (length rows.old) (length answer.old)))
        (order_in file.now) (least_lateness (order_in file.now))
        (least_lateness (order_in file.now) ∷ [])
        rows.old rows.new answer.old answer.new }
{
    if answer.len() < 2 {
        return SHORT_ANSWER;
    }
    let order = match read_order(file) {
        Ok(order) => order,
        Err(refusal) => return result_of(refusal),
    };
    match least_lateness(order, rows) {
        Ok(least) => {
            put_least(answer, least.lateness, least.rows);
            0
        }
        Err(refusal) => result_of(refusal),
    }
}
