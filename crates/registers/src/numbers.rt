// Numbers in the block, little-endian. `put_lateness` serves this crate alone and has a `requires`.
ghost use Rattle.std.specs.Prelude.{◌≡◌, ◌≤◌, length, get_or};
ghost use Rattle.order_file.specs.Bytes.{bytes4};
ghost use Rattle.registers.specs.Memory.{lateness_put};

// A byte of a number, counted from 0; a number has four. By cases: a place in to_le_bytes would be read below the stack pointer.
pub fn byte_of(number: u32, which: usize) -> u8
    ensures { result ≡ get_or (bytes4 number) which 0 }
{
    match which {
        0 => (number % 256) as u8,
        1 => (number / 256 % 256) as u8,
        2 => (number / 65536 % 256) as u8,
        3 => (number / 16777216 % 256) as u8,
        _ => 0,
    }
}

// Bytes 12 to 15.
pub fn put_lateness(bytes: &mut [u8], number: u32)
    requires { 256 ≤ length bytes.old }
    ensures { bytes.new ≡ lateness_put bytes.old number }
{
    bytes[12..16].copy_from_slice(&number.to_le_bytes());
}
