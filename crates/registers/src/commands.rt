// What a write to byte 0 does. `command` serves this crate alone and has a `requires`.
ghost use Rattle.std.specs.Prelude.{◌≤◌, length};
ghost use Rattle.registers.specs.Memory.{WroteIn};

use super::clearing::{clear_bytes, clear_rows};
use super::outcomes::{begin, conclude};
use super::planning::{plan_at_bound, plan_at_least};

// The numbers that hold 180 rows.
const ROW_NUMBERS: usize = 720;

// "Every command first clears bits 0 and 1, bytes 2 and 12 to 15 and the rows held."
pub fn command(bytes: &mut [u8], rows: &mut [u32], value: u8)
    requires { (256 ≤ length bytes.old) × (720 ≤ length rows.old) }
    ensures { WroteIn 0 value bytes.old rows.old bytes.new rows.new }
{
    begin(bytes);
    clear_rows(rows, ROW_NUMBERS);
    match value {
        1 => {
            let outcome = plan_at_bound(bytes, rows);
            conclude(bytes, outcome);
        }
        2 => {
            let outcome = plan_at_least(bytes, rows);
            conclude(bytes, outcome);
        }
        3 => clear_bytes(bytes),
        _ => conclude(bytes, Err(0)),
    }
}
