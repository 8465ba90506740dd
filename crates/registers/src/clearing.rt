// A cleared block. `clear_bytes` and `clear_rows` serve this crate and the crate above and have a `requires`.
ghost use Rattle.std.specs.Prelude.{◌≡◌, ◌++◌, ◌≤◌, length, drop, replicate};

use super::Block;

pub fn cleared() -> Block
    ensures { (result.bytes ≡ replicate 256 0) × (result.rows ≡ replicate 720 0) }
{
    Block {
        bytes: [0; 256],
        rows: [0; 720],
    }
}

// "Clear makes all bytes 0."
pub fn clear_bytes(bytes: &mut [u8])
    requires { 256 ≤ length bytes.old }
    ensures { bytes.new ≡ replicate 256 0 ++ drop 256 bytes.old }
{
    bytes[..256].fill(0);
}

// No row is held: so many numbers are 0.
pub fn clear_rows(rows: &mut [u32], count: usize)
    requires { count ≤ length rows.old }
    ensures { rows.new ≡ replicate count 0 ++ drop count rows.old }
{
    rows[..count].fill(0);
}
