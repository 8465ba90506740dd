// hbr_between_order: the file of the first order met on the path from all lows to all highs whose least lateness is a number. `hand_out`
// serves it alone and has a `requires`.
ghost use Rattle.std.specs.Prelude.{◌≡◌, [], ◌∷◌, ◌≤◌, pos, length};
ghost use Rattle.order.specs.Refusals.{judge, left_by, Accepted};
ghost use Rattle.order.specs.Table.{order_of};
ghost use Rattle.estimate.specs.Estimate.{order_met};
ghost use Rattle.highboyrobin.specs.BetweenCalls.{estimate_in, order_call, file_in, BackBy, HandedBy};
ghost use Rattle.highboyrobin.specs.Results.{result_of};

use super::answers::put_count;
use super::estimating::read_estimate;
use super::results::result_of;
use estimate::met::order_between;
use order::Order;
use order_file::write::write_order;

// The file of an order into the buffer, its length into the answer; 9 where the buffer is too short.
fn hand_out(found: Order, order: &mut [u8], answer: &mut [i32]) -> u32
    requires { Accepted (order_of found) × (1 ≤ length answer.old) }
    ensures { HandedBy (order_of found) order.old order.new answer.old answer.new result }
{
    match write_order(found, order) {
        Ok(n) => {
            put_count(answer, n as u32);
            0
        }
        Err(refusal) => result_of(refusal),
    }
}

pub fn hbr_between_order(
    file: &[u8],
    highs: &[u32],
    number: i32,
    order: &mut [u8],
    answer: &mut [i32],
) -> u32
    ensures value { result ≡ result_of (judge (order_call file.now highs.now number (length order.old)
        (length answer.old))) }
    ensures order_after { order.new ≡ left_by (judge (order_call file.now highs.now number
        (length order.old) (length answer.old)))
        (file_in file.now highs.now number) order.old }
    ensures back_by { BackBy (judge (order_call file.now highs.now number (length order.old)
        (length answer.old))) (order_met (estimate_in file.now highs.now) number)
        order.new }
    ensures answer_after { answer.new ≡ left_by (judge (order_call file.now highs.now number
        (length order.old) (length answer.old)))
        (pos (length (file_in file.now highs.now number)) ∷ []) answer.old }
{
    let estimate = match read_estimate(file, highs, answer.len(), 1) {
        Ok(estimate) => estimate,
        Err(result) => return result,
    };
    match order_between(estimate, number) {
        Ok(Some(met)) => hand_out(met, order, answer),
        Ok(None) => {
            put_count(answer, 0);
            0
        }
        Err(refusal) => result_of(refusal),
    }
}
