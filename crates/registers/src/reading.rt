// A read of the block. `read_in` serves `read` and the crate above and has a `requires`.
ghost use Rattle.std.specs.Prelude.{◌≡◌, ◌≤◌, ◌<◌, length, get_or};
ghost use Rattle.sums.specs.Lists.{nth};
ghost use Rattle.registers.specs.Registers.{no_row, row_numbers, read_at};
ghost use Rattle.registers.specs.Memory.{registers_of, rows_held};

use super::numbers::byte_of;
use super::places::place_of;
use super::{Block, Place};
use order_file::bytes::{read2, read4};

// The most rows that are held.
const MOST_ROWS: u32 = 180;

// A number of a row, counted from 0: job, processor, from, to. 0 where the row is not held.
fn row_number(rows: &[u32], row: u32, which: usize) -> u32
    requires { (720 ≤ length rows.now) × (which < 4) }
    ensures { result ≡ get_or (row_numbers (nth (rows_held rows.now) row no_row)) which 0 }
{
    if row == 0 {
        return 0;
    }
    if MOST_ROWS < row {
        return 0;
    }
    let first = 4 * (row as usize - 1);
    rows[first + which]
}

// A read of lent memory.
pub fn read_in(bytes: &[u8], rows: &[u32], address: u8) -> u8
    requires { (256 ≤ length bytes.now) × (720 ≤ length rows.now) }
    ensures { result ≡ read_at (registers_of bytes.now rows.now) address }
{
    let at = address as usize;
    let place = place_of(address);
    match place {
        Place::Command => 0,
        Place::Flag => bytes[1] % 8,
        Place::Number => bytes[2],
        Place::Allow => bytes[3] % 2,
        Place::Stored => bytes[at],
        Place::Lateness => byte_of(read4(bytes, 12), at - 12),
        Place::Held => {
            let row = read2(bytes, 10);
            byte_of(row_number(rows, row, (at - 16) / 4), (at - 16) % 4)
        }
        Place::Nothing => 0,
    }
}

pub fn read(block: Block, address: u8) -> u8
    ensures { result ≡ read_at (registers_of block.bytes block.rows) address }
{
    read_in(&block.bytes, &block.rows, address)
}
