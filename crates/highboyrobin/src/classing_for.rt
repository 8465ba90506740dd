// The classes of the order of a file by the caller's limits; not for C.
ghost use Rattle.std.specs.Prelude.{◌≡◌, [], ◌∷◌, pos, length};
ghost use Rattle.order.specs.Refusals.{judge, left_by};
ghost use Rattle.order.specs.Callers.{rows_for};
ghost use Rattle.order_file.specs.File.{order_in};
ghost use Rattle.highboyrobin.specs.Results.{result_of};
ghost use Rattle.highboyrobin.specs.ClassCalls.{classes_call, class_count, class_pairs};

use super::classing::hbr_classes;
use super::results::{SHORT_ANSWER, SHORT_CLASSES, result_of};
use callers::files::accept_file_for;
use order::Caller;

#[tactic(auto, using(crate::proofs::Screening::trailer_carries), unfolding(order::specs::Refusals::judge, crate::specs::Results::list_call, order::specs::Callers::rows_by))]
pub fn classes_for(caller: Caller, file: &[u8], classes: &mut [u32], answer: &mut [i32]) -> u32
    ensures value { result ≡ result_of (judge (rows_for caller (order_in file.now)
        (classes_call file.now (length classes.old) (length answer.old)))) }
    ensures classes_after { classes.new ≡ left_by (judge (rows_for caller (order_in file.now)
        (classes_call file.now (length classes.old) (length answer.old))))
        (class_pairs (order_in file.now)) classes.old }
    ensures answer_after { answer.new ≡ left_by (judge (rows_for caller (order_in file.now)
        (classes_call file.now (length classes.old) (length answer.old))))
        (pos (class_count (order_in file.now)) ∷ []) answer.old }
{
    if answer.len() < 1 {
        return SHORT_ANSWER;
    }
    if classes.len() < 32 {
        return SHORT_CLASSES;
    }
    if let Err(refusal) = accept_file_for(caller, file) {
        return result_of(refusal);
    }
    hbr_classes(file, classes, answer)
}
