// `hbr_block_write` for C.
ghost use Rattle.std.specs.Prelude.{◌≡◌, length};
ghost use Rattle.order.specs.Refusals.{judge};
ghost use Rattle.highboyrobin.specs.Results.{result_of};
ghost use Rattle.highboyrobin.specs.BlockCalls.{block_call, BlockBy};

#[unsafe(no_mangle)]
pub extern "C" fn hbr_block_write(block: &mut [u8], rows: &mut [u32], address: u8, value: u8) -> u32
    ensures value { result ≡ result_of (judge (block_call (length block.old) (length rows.old))) }
    ensures block_by { BlockBy (judge (block_call (length block.old) (length rows.old))) address value
        block.old rows.old block.new rows.new }
{
    highboyrobin::block_write::hbr_block_write(block, rows, address, value)
}
