// hbr_classes: the classes of the order of a file, each with its memory and its processors. `put_classes` serves this file alone and
// has a `requires`.
ghost use Rattle.std.specs.Prelude.{◌≡◌, [], ◌∷◌, ◌++◌, ℕ, ◌*◌, ◌≤◌, pos, length, get_or, drop};
ghost use Rattle.order.specs.Refusals.{judge, left_by};
ghost use Rattle.order_file.specs.File.{order_in};
ghost use Rattle.highboyrobin.specs.Results.{result_of};
ghost use Rattle.highboyrobin.specs.ClassCalls.{classes_call, pairs_to, class_count, class_pairs};

use super::answers::put_count;
use super::results::{SHORT_ANSWER, SHORT_CLASSES, result_of};
use order::orderings::processor_order;
use order_file::read::read_order;
use table::Listing;
use table::passing::classes_of;

// Two numbers to a class, in the first places.
fn put_classes(list: &mut [u32], found: Listing)
    requires { (found.count ≤ 16) × (32 ≤ length list.old) }
    ensures { list.new ≡ pairs_to (λ (i : ℕ). get_or found.memories i 0) (λ (i : ℕ). get_or found.procs i 0) found.count
        ++ drop (2 * found.count) list.old }
{
    for i in 0..found.count {
        list[2 * i] = found.memories[i];
        list[2 * i + 1] = found.procs[i];
    }
}

#[tactic(auto, using(crate::proofs::Carried::reader_carries, crate::proofs::ClassesTold::read_few), unfolding(order::specs::Refusals::judge, crate::specs::Results::list_call))]
pub fn hbr_classes(file: &[u8], classes: &mut [u32], answer: &mut [i32]) -> u32
    ensures value { result ≡ result_of (judge (classes_call file.now (length classes.old)
        (length answer.old))) }
    ensures classes_after { classes.new ≡ left_by (judge (classes_call file.now (length classes.old)
        (length answer.old))) (class_pairs (order_in file.now)) classes.old }
    ensures answer_after { answer.new ≡ left_by (judge (classes_call file.now (length classes.old)
        (length answer.old))) (pos (class_count (order_in file.now)) ∷ []) answer.old }
{
    if answer.len() < 1 {
        return SHORT_ANSWER;
    }
    if classes.len() < 32 {
        return SHORT_CLASSES;
    }
    let order = match read_order(file) {
        Ok(order) => order,
        Err(refusal) => return result_of(refusal),
    };
    let found = classes_of(order, processor_order(order));
    put_classes(classes, found);
    put_count(answer, found.count as u32);
    0
}
