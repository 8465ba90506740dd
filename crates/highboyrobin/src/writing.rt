// hbr_write: the order file of an order that is given as lists of numbers.
ghost use Rattle.std.specs.Prelude.{◌≡◌, [], ◌∷◌, pos, length};
ghost use Rattle.order.specs.Refusals.{judge, left_by};
ghost use Rattle.order_file.specs.File.{file_length, written_by, ReadBackBy};
ghost use Rattle.highboyrobin.specs.Results.{result_of};
ghost use Rattle.highboyrobin.specs.Calls.{order_from, write_call};

use super::answers::put_count;
use super::gathering::order_from;
use super::results::{PART_JOB, SHORT_ANSWER, result_of};
use order::{Caller, Refusal};
use order_file::write::write_order;

#[tactic(auto, unfolding(order::specs::Refusals::judge, crate::specs::Calls::write_call))]
pub fn hbr_write(memories: &[u32], jobs: &[u32], file: &mut [u8], answer: &mut [i32]) -> u32
    ensures value { result ≡ result_of (judge (write_call memories.now jobs.now (length file.old)
        (length answer.old))) }
    ensures file_after { file.new ≡ written_by (judge (write_call memories.now jobs.now
        (length file.old) (length answer.old)))
        (order_from memories.now jobs.now) file.old }
    ensures read_back_by { ReadBackBy (judge (write_call memories.now jobs.now (length file.old)
        (length answer.old))) (order_from memories.now jobs.now) file.new }
    ensures answer_after { answer.new ≡ left_by (judge (write_call memories.now jobs.now
        (length file.old) (length answer.old)))
        (pos (file_length (order_from memories.now jobs.now)) ∷ []) answer.old }
{
    if answer.len() < 1 {
        return SHORT_ANSWER;
    }
    if jobs.len() % 4 != 0 {
        return PART_JOB;
    }
    if 16 < memories.len() {
        return result_of(Refusal::TooManyProcessors(Caller::Dock));
    }
    if 192 < jobs.len() {
        if memories.len() == 0 {
            return result_of(Refusal::NoProcessor);
        }
        return result_of(Refusal::TooManyJobs(Caller::Dock));
    }
    match write_order(order_from(memories, jobs), file) {
        Ok(n) => {
            put_count(answer, n as u32);
            0
        }
        Err(refusal) => result_of(refusal),
    }
}
