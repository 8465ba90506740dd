// `hbr_block_clear` for C.
ghost use Rattle.std.specs.Prelude.{◌≡◌, length, replicate};
ghost use Rattle.order.specs.Refusals.{judge, left_by};
ghost use Rattle.highboyrobin.specs.Results.{result_of};
ghost use Rattle.highboyrobin.specs.BlockCalls.{block_call};

#[unsafe(no_mangle)]
pub extern "C" fn hbr_block_clear(block: &mut [u8], rows: &mut [u32]) -> u32
    ensures value { result ≡ result_of (judge (block_call (length block.old) (length rows.old))) }
    ensures block_after { block.new ≡ left_by (judge (block_call (length block.old) (length rows.old)))
        (replicate 256 0) block.old }
    ensures rows_after { rows.new ≡ left_by (judge (block_call (length block.old) (length rows.old)))
        (replicate 720 0) rows.old }
{
    highboyrobin::block_clear::hbr_block_clear(block, rows)
}
