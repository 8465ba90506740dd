// A plan for the order that is stored in the block, judged as a screen's. Each function serves this crate alone and has a `requires`.
ghost use Rattle.std.specs.Prelude.{◌≡◌, ◌≤◌, length, IfOk};
ghost use Rattle.order.specs.Refusals.{judge, answer_by};
ghost use Rattle.order.specs.Table.{table_of};
ghost use Rattle.order_file.specs.Told.{read_told};
ghost use Rattle.profile.specs.Least.{least_lateness};
ghost use Rattle.registers.specs.Registers.{bound_of, stored_order, least_table, bound_table};
ghost use Rattle.registers.specs.Memory.{bytes_alone, OutcomeBy};

use callers::files::read_order_for;
use order::told::number_of;
use order::{Caller, Order, Refusal};
use order_file::bytes::{read2, read4, to_signed};
use planner::NoPlan;
use planner::bound::plan_at;
use planner::lateness::least_lateness;

// The most bytes of a file that is stored.
const MOST_BYTES: usize = 220;

// The refusal where no plan can meet the bound.
const TOO_TIGHT: u8 = 10;

// The order that is stored: 12 where its length is over 220, else as a screen's file is read.
fn stored_order(bytes: &[u8]) -> Result<Order, Refusal>
    requires { 256 ≤ length bytes.now }
    ensures result_value { read_told result ≡ answer_by (judge (least_table (bytes_alone bytes.now)))
        (stored_order (bytes_alone bytes.now)) }
    ensures order_value { IfOk result (λ t. t ≡ table_of (stored_order (bytes_alone bytes.now))) }
{
    let length = read2(bytes, 8) as usize;
    if MOST_BYTES < length {
        return Err(Refusal::BadFile);
    }
    let end = 32 + length;
    let file = &bytes[32..end];
    read_order_for(Caller::Screen, file)
}

// Command 2. The bound is not looked at.
pub fn plan_at_least(bytes: &[u8], rows: &mut [u32]) -> Result<i32, u8>
    requires { (256 ≤ length bytes.now) × (720 ≤ length rows.old) }
    ensures { OutcomeBy (judge (least_table (bytes_alone bytes.now))) (stored_order (bytes_alone bytes.now))
        (least_lateness (stored_order (bytes_alone bytes.now))) rows.old rows.new result }
{
    let order = match stored_order(bytes) {
        Ok(order) => order,
        Err(refusal) => return Err(number_of(refusal) as u8),
    };
    match least_lateness(order, rows) {
        Ok(least) => Ok(least.lateness),
        Err(refusal) => Err(number_of(refusal) as u8),
    }
}

// Command 1.
pub fn plan_at_bound(bytes: &[u8], rows: &mut [u32]) -> Result<i32, u8>
    requires { (256 ≤ length bytes.now) × (720 ≤ length rows.old) }
    ensures { OutcomeBy (judge (bound_table (bytes_alone bytes.now))) (stored_order (bytes_alone bytes.now))
        (bound_of (bytes_alone bytes.now)) rows.old rows.new result }
{
    let order = match stored_order(bytes) {
        Ok(order) => order,
        Err(refusal) => return Err(number_of(refusal) as u8),
    };
    let bound = to_signed(read4(bytes, 4));
    match plan_at(order, bound, rows) {
        Ok(_) => Ok(bound),
        Err(NoPlan::TooTight(_, _)) => Err(TOO_TIGHT),
        Err(NoPlan::Refused(refusal)) => Err(number_of(refusal) as u8),
    }
}
