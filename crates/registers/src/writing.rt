// A write to the block. `write_in` serves `write` and the crate above and has a `requires`.
ghost use Rattle.std.specs.Prelude.{◌≡◌, ◌≤◌, length};
ghost use Rattle.registers.specs.Registers.{place_of, acknowledged, allowing, storing};
ghost use Rattle.registers.specs.declared.Place.TheVariants.{Stored};
ghost use Rattle.registers.specs.Memory.{Moved, WroteIn};

use super::bits::{flags_in, with_allowed, with_flags};
use super::commands::command;
use super::places::place_of;
use super::{Block, Flags, Place};

// Byte 1: "writing a 1 clears that bit".
fn acknowledge(bytes: &mut [u8], written: u8)
    requires { 256 ≤ length bytes.old }
    ensures { Moved (acknowledged written) bytes.old bytes.new }
{
    let held = flags_in(bytes[1]);
    let ones = flags_in(written);
    let flags = Flags {
        done: held.done && !ones.done,
        refused: held.refused && !ones.refused,
        interrupt: held.interrupt && !ones.interrupt,
    };
    bytes[1] = with_flags(bytes[1], flags);
}

// Byte 3: "bit 0 allows the interrupt".
fn allow(bytes: &mut [u8], written: u8)
    requires { 256 ≤ length bytes.old }
    ensures { Moved (allowing written) bytes.old bytes.new }
{
    bytes[3] = with_allowed(bytes[3], written);
}

// A byte that keeps what is written.
fn store(bytes: &mut [u8], address: u8, value: u8)
    requires { (256 ≤ length bytes.old) × (place_of address ≡ Stored) }
    ensures { Moved (storing address value) bytes.old bytes.new }
{
    bytes[address as usize] = value;
}

// A write to lent memory.
pub fn write_in(bytes: &mut [u8], rows: &mut [u32], address: u8, value: u8)
    requires { (256 ≤ length bytes.old) × (720 ≤ length rows.old) }
    ensures { WroteIn address value bytes.old rows.old bytes.new rows.new }
{
    let place = place_of(address);
    match place {
        Place::Command => command(bytes, rows, value),
        Place::Flag => acknowledge(bytes, value),
        Place::Allow => allow(bytes, value),
        Place::Stored => store(bytes, address, value),
        Place::Number => {}
        Place::Lateness => {}
        Place::Held => {}
        Place::Nothing => {}
    }
}

pub fn write(block: Block, address: u8, value: u8) -> Block
    ensures { WroteIn address value block.bytes block.rows result.bytes result.rows }
{
    let mut after = block;
    write_in(&mut after.bytes, &mut after.rows, address, value);
    after
}
