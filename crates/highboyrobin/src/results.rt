// A refusal as the result of a call. `result_from` and `result_of` serve this crate alone and have a `requires`.
ghost use Rattle.std.specs.Prelude.{◌≡◌, ◌+◌, ◌*◌, ◌≤◌};
ghost use Rattle.order.specs.Table.{refusal_told, carried_by};
ghost use Rattle.highboyrobin.specs.Results.{result_of};

use order::Refusal;
use order::told::{carried_of, number_of};

// The result where an answer is too short; where the jobs' numbers are not four to a job; where a reason has under 19 numbers, a
// book under 16 or a list of classes under 32; where so many lengths are listed that a place could not be carried; where the times are
// not as long as the file's counts; where the highs are not as long as its jobs; where a block has under 256 bytes or 720 numbers. No
// refusal has these numbers.
pub const SHORT_ANSWER: u32 = 255;

pub const PART_JOB: u32 = 254;

pub const SHORT_REASON: u32 = 253;

pub const SHORT_BOOK: u32 = 253;

pub const SHORT_CLASSES: u32 = 253;

pub const LONG_LIST: u32 = 253;

pub const WRONG_TIMES: u32 = 253;

pub const WRONG_HIGHS: u32 = 253;

pub const SHORT_BLOCK: u32 = 253;

// The result where a file is bad; where no plan can meet the bound.
pub const BAD_FILE: u32 = 12;

pub const TOO_TIGHT: u32 = 10;

// A refusal's number and what it carries as a result.
pub fn result_from(number: u32, carried: u32) -> u32
    requires { (number ≤ 255) × (carried ≤ 16777215) }
    ensures { result ≡ number + 256 * carried }
{
    number + 256 * carried
}

// A refusal as a result.
pub fn result_of(refusal: Refusal) -> u32
    requires { carried_by (refusal_told refusal) ≤ 16777215 }
    ensures { result ≡ result_of (refusal_told refusal) }
{
    result_from(number_of(refusal), carried_of(refusal))
}
