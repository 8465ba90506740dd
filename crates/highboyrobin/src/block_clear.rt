// hbr_block_clear: a cleared block in lent memory.
ghost use Rattle.std.specs.Prelude.{◌≡◌, length, replicate};
ghost use Rattle.order.specs.Refusals.{judge, left_by};
ghost use Rattle.highboyrobin.specs.Results.{result_of};
ghost use Rattle.highboyrobin.specs.BlockCalls.{block_call};

use super::results::SHORT_BLOCK;
use registers::clearing::{clear_bytes, clear_rows};

pub fn hbr_block_clear(block: &mut [u8], rows: &mut [u32]) -> u32
    ensures value { result ≡ result_of (judge (block_call (length block.old) (length rows.old))) }
    ensures block_after { block.new ≡ left_by (judge (block_call (length block.old) (length rows.old)))
        (replicate 256 0) block.old }
    ensures rows_after { rows.new ≡ left_by (judge (block_call (length block.old) (length rows.old)))
        (replicate 720 0) rows.old }
{
    if block.len() < 256 {
        return SHORT_BLOCK;
    }
    if rows.len() < 720 {
        return SHORT_BLOCK;
    }
    clear_bytes(block);
    clear_rows(rows, 720);
    0
}
