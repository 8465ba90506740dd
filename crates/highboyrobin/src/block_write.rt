// hbr_block_write: a write to the block in lent memory.
ghost use Rattle.std.specs.Prelude.{◌≡◌, length};
ghost use Rattle.order.specs.Refusals.{judge};
ghost use Rattle.highboyrobin.specs.Results.{result_of};
ghost use Rattle.highboyrobin.specs.BlockCalls.{block_call, BlockBy};

use super::results::SHORT_BLOCK;
use registers::writing::write_in;

pub fn hbr_block_write(block: &mut [u8], rows: &mut [u32], address: u8, value: u8) -> u32
    ensures value { result ≡ result_of (judge (block_call (length block.old) (length rows.old))) }
    ensures block_by { BlockBy (judge (block_call (length block.old) (length rows.old))) address value
        block.old rows.old block.new rows.new }
{
    if block.len() < 256 {
        return SHORT_BLOCK;
    }
    if rows.len() < 720 {
        return SHORT_BLOCK;
    }
    write_in(block, rows, address, value);
    0
}
