// Text put into a lent buffer at a place; each `put_` function answers the place behind it. These serve this crate and those
// above, and have a `requires`.
ghost use Rattle.std.specs.Prelude.{◌≡◌, ◌+◌, ◌≤◌, length};
ghost use Rattle.text.specs.Text.{decimal, number, signed_number, Put};

// These bytes.
pub fn put_bytes(out: &mut [u8], at: usize, bytes: &[u8]) -> usize
    requires { at + length bytes.now ≤ length out.old }
    ensures { Put out.old at bytes.now out.new result }
{
    let behind = at + bytes.len();
    out[at..behind].copy_from_slice(bytes);
    behind
}

// How many digits a number has in base ten.
fn digits_of(n: u32) -> usize
    ensures { result ≡ length (decimal n) }
{
    n.max(1).ilog10() as usize + 1
}

// A number in base ten, its last digit first.
fn put_decimal(out: &mut [u8], at: usize, n: u32) -> usize
    requires { at + length (decimal n) ≤ length out.old }
    ensures { Put out.old at (decimal n) out.new result }
{
    let behind = at + digits_of(n);
    let mut rest = n;
    for place in (at..behind).rev() {
        out[place] = b'0' + (rest % 10) as u8;
        rest /= 10;
    }
    behind
}

// A space, and a number.
pub fn put_number(out: &mut [u8], at: usize, n: u32) -> usize
    requires { at + 11 ≤ length out.old }
    ensures { Put out.old at (number n) out.new result × (result ≤ at + 11) }
{
    let behind = put_bytes(out, at, b" ");
    put_decimal(out, behind, n)
}

// A space, and a number of this sign.
pub fn put_signed(out: &mut [u8], at: usize, n: i32) -> usize
    requires { at + 12 ≤ length out.old }
    ensures { Put out.old at (signed_number n) out.new result × (result ≤ at + 12) }
{
    let size = n.unsigned_abs();
    if 0 <= n {
        return put_number(out, at, size);
    }
    let behind = put_bytes(out, at, b" -");
    put_decimal(out, behind, size)
}
