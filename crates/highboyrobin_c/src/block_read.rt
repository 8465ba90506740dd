// `hbr_block_read` for C.
ghost use Rattle.std.specs.Prelude.{◌≡◌, length};
ghost use Rattle.order.specs.Refusals.{judge, left_by};
ghost use Rattle.highboyrobin.specs.Results.{result_of};
ghost use Rattle.highboyrobin.specs.BlockCalls.{block_read_call, byte_read};

#[unsafe(no_mangle)]
pub extern "C" fn hbr_block_read(block: &[u8], rows: &[u32], address: u8, answer: &mut [i32]) -> u32
    ensures value { result ≡ result_of (judge (block_read_call (length block.now) (length rows.now)
        (length answer.old))) }
    ensures answer_after { answer.new ≡ left_by (judge (block_read_call (length block.now) (length rows.now)
        (length answer.old))) (byte_read block.now rows.now address) answer.old }
{
    highboyrobin::block_read::hbr_block_read(block, rows, address, answer)
}
