// Numbers as bytes, little-endian; two's complement for the due time. Each function serves this crate and the programs, and may
// have a `requires`.
ghost use Rattle.std.specs.Prelude.{◌≡◌, ℕ, ◌+◌, ◌<◌, ◌≤◌, ◌++◌, pos, length, get_or, take, drop};
ghost use Rattle.order_file.specs.Bytes.{number4, number2, bytes4, bytes2, signed, pattern};

// The number of the four bytes at a place.
pub fn read4(s: &[u8], at: usize) -> u32
    requires { at + 4 ≤ length s.now }
    ensures { result ≡ number4 s.now at }
{
    u32::from_le_bytes([s[at], s[at + 1], s[at + 2], s[at + 3]])
}

// The number of the two bytes at a place.
pub fn read2(s: &[u8], at: usize) -> u32
    requires { at + 2 ≤ length s.now }
    ensures { (result ≡ number2 s.now at) × (result < 65536) }
{
    u32::from(u16::from_le_bytes([s[at], s[at + 1]]))
}

// The signed number of a pattern.
pub fn to_signed(raw: u32) -> i32
    ensures { result ≡ signed raw }
{
    raw.cast_signed()
}

// The signed numbers of 48 patterns.
pub fn all_signed(raw: &[u32; 48]) -> [i32; 48]
    ensures { (length result ≡ 48) × ((i : ℕ) → i < 48 → get_or result i (pos 0) ≡ signed (get_or raw.now i 0)) }
{
    let mut out = [0i32; 48];
    for i in 0..48 {
        out[i] = to_signed(raw[i]);
    }
    out
}

// The pattern of a signed number.
pub fn to_pattern(number: i32) -> u32
    ensures { result ≡ pattern number }
{
    number.cast_unsigned()
}

// The four bytes of a number are stored at a place.
pub fn put4(out: &mut [u8], at: usize, x: u32)
    requires { at + 4 ≤ length out.old }
    ensures { out.new ≡ take at out.old ++ (bytes4 x ++ drop (at + 4) out.old) }
{
    out[at..at + 4].copy_from_slice(&x.to_le_bytes());
}

// The two bytes of a number are stored at a place.
pub fn put2(out: &mut [u8], at: usize, x: u32)
    requires { at + 2 ≤ length out.old }
    ensures { out.new ≡ take at out.old ++ (bytes2 x ++ drop (at + 2) out.old) }
{
    out[at..at + 2].copy_from_slice(&x.to_le_bytes()[..2]);
}
