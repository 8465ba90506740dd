// hbr_needs: the needs of listed lengths, from a maker's table.
ghost use Rattle.std.specs.Prelude.{◌≡◌, [], ◌∷◌, pos, length};
ghost use Rattle.order.specs.Refusals.{judge, left_by};
ghost use Rattle.needs.specs.NeedTable.{needs_of};
ghost use Rattle.highboyrobin.specs.NeedCalls.{needs_call};
ghost use Rattle.highboyrobin.specs.Results.{result_of};

use super::answers::put_count;
use super::results::{LONG_LIST, SHORT_ANSWER, result_from};
use needs::Unfilled;
use needs::filling::fill_needs;

// The most lengths of a call: a larger place has no room in a result.
pub const MOST_LENGTHS: usize = 16777215;

#[tactic(auto, unfolding(order::specs::Refusals::judge, crate::specs::NeedCalls::needs_call))]
pub fn hbr_needs(table: &[u32], lengths: &[u32], needs: &mut [u32], answer: &mut [i32]) -> u32
    ensures value { result ≡ result_of (judge (needs_call table.now lengths.now (length needs.old)
        (length answer.old))) }
    ensures needs_after { needs.new ≡ left_by (judge (needs_call table.now lengths.now
        (length needs.old) (length answer.old)))
        (needs_of table.now lengths.now) needs.old }
    ensures answer_after { answer.new ≡ left_by (judge (needs_call table.now lengths.now
        (length needs.old) (length answer.old)))
        (pos (length lengths.now) ∷ []) answer.old }
{
    if answer.len() < 1 {
        return SHORT_ANSWER;
    }
    if MOST_LENGTHS < lengths.len() {
        return LONG_LIST;
    }
    match fill_needs(table, lengths, needs) {
        Ok(n) => {
            put_count(answer, n as u32);
            0
        }
        Err(Unfilled::NoLine(length)) => result_from(17, length),
        Err(Unfilled::TwoLines(length)) => result_from(18, length),
        Err(Unfilled::LengthOutOfRange(place)) => result_from(5, place as u32),
        Err(Unfilled::BufferTooShort) => 9,
    }
}
