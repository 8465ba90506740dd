// The bits of bytes 1 and 3. Their unnamed bits stay as they are.
ghost use Rattle.std.specs.Prelude.{◌≡◌};
ghost use Rattle.registers.specs.Memory.{flags_in, with_flags, with_allowed};

use super::Flags;

// The flags of a byte.
pub fn flags_in(byte: u8) -> Flags
    ensures { result ≡ flags_in byte }
{
    Flags {
        done: byte % 2 == 1,
        refused: byte / 2 % 2 == 1,
        interrupt: byte / 4 % 2 == 1,
    }
}

// Byte 1 with these flags.
pub fn with_flags(byte: u8, flags: Flags) -> u8
    ensures { result ≡ with_flags byte flags }
{
    byte / 8 * 8
        + u8::from(flags.done)
        + 2 * u8::from(flags.refused)
        + 4 * u8::from(flags.interrupt)
}

// Byte 3 with the bit that is written.
pub fn with_allowed(byte: u8, written: u8) -> u8
    ensures { result ≡ with_allowed byte written }
{
    byte / 2 * 2 + written % 2
}
