// What every command clears first, and what it sets when it is over. Each function serves this crate alone and has a `requires`.
ghost use Rattle.std.specs.Prelude.{◌≤◌, length};
ghost use Rattle.registers.specs.Registers.{begun, refused_with};
ghost use Rattle.registers.specs.Memory.{Moved, finished_at, concluded};

use super::Flags;
use super::bits::{flags_in, with_flags};
use super::numbers::put_lateness;
use order_file::bytes::to_pattern;

// "Every command first clears bits 0 and 1, bytes 2 and 12 to 15": bit 2 stays.
pub fn begin(bytes: &mut [u8])
    requires { 256 ≤ length bytes.old }
    ensures { Moved begun bytes.old bytes.new }
{
    let held = flags_in(bytes[1]);
    let flags = Flags {
        done: false,
        refused: false,
        interrupt: held.interrupt,
    };
    bytes[1] = with_flags(bytes[1], flags);
    bytes[2] = 0;
    put_lateness(bytes, 0);
}

// Done, at this lateness.
fn finish(bytes: &mut [u8], lateness: i32)
    requires { 256 ≤ length bytes.old }
    ensures { Moved (finished_at lateness) bytes.old bytes.new }
{
    let held = flags_in(bytes[1]);
    let flags = Flags {
        done: true,
        refused: held.refused,
        interrupt: held.interrupt || bytes[3] % 2 == 1,
    };
    bytes[1] = with_flags(bytes[1], flags);
    put_lateness(bytes, to_pattern(lateness));
}

// Refused, with this number.
fn refuse(bytes: &mut [u8], number: u8)
    requires { 256 ≤ length bytes.old }
    ensures { Moved (refused_with number) bytes.old bytes.new }
{
    let held = flags_in(bytes[1]);
    let flags = Flags {
        done: held.done,
        refused: true,
        interrupt: held.interrupt || bytes[3] % 2 == 1,
    };
    bytes[1] = with_flags(bytes[1], flags);
    bytes[2] = number;
}

// How a command ended: at this lateness, or refused with this number.
// "Finished or refused, a command but 3 sets its flag, and bit 2 if allowed."
pub fn conclude(bytes: &mut [u8], outcome: Result<i32, u8>)
    requires { 256 ≤ length bytes.old }
    ensures { Moved (concluded outcome) bytes.old bytes.new }
{
    match outcome {
        Ok(lateness) => finish(bytes, lateness),
        Err(number) => refuse(bytes, number),
    }
}
