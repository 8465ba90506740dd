// hbr_block_read: a byte of the block in lent memory.
ghost use Rattle.std.specs.Prelude.{◌≡◌, length};
ghost use Rattle.order.specs.Refusals.{judge, left_by};
ghost use Rattle.highboyrobin.specs.Results.{result_of};
ghost use Rattle.highboyrobin.specs.BlockCalls.{block_read_call, byte_read};

use super::answers::put_count;
use super::results::{SHORT_ANSWER, SHORT_BLOCK};
use registers::reading::read_in;

pub fn hbr_block_read(block: &[u8], rows: &[u32], address: u8, answer: &mut [i32]) -> u32
    ensures value { result ≡ result_of (judge (block_read_call (length block.now) (length rows.now)
        (length answer.old))) }
    ensures answer_after { answer.new ≡ left_by (judge (block_read_call (length block.now) (length rows.now)
        (length answer.old))) (byte_read block.now rows.now address) answer.old }
{
    if answer.len() < 1 {
        return SHORT_ANSWER;
    }
    if block.len() < 256 {
        return SHORT_BLOCK;
    }
    if rows.len() < 720 {
        return SHORT_BLOCK;
    }
    put_count(answer, read_in(block, rows, address) as u32);
    0
}
