// The numbers in a line, byte by byte. What is found is only tried: the line is composed from it and compared. All serve this crate
// alone; those that go on with a number have a `requires`.
ghost use Rattle.std.specs.Prelude.{◌≡◌, ◌<◌, IfSome};
ghost use Rattle.sentence.specs.Scanning.{signed_of, stored_at, other_byte, with_digit, stepped, scanned};

use super::Numbers;

// A number with its sign.
fn with_sign(value: u32, minus: bool) -> i32
    requires { value < 100000000 }
    ensures { result ≡ signed_of minus value }
{
    let value = value as i32;
    if minus { -value } else { value }
}

// The second, fourth, .. number is a due time.
fn stored_at(mut dues: [i32; 16], done: u32, number: i32) -> [i32; 16]
    ensures { result ≡ stored_at dues done number }
{
    let i = (done / 2) as usize;
    if done % 2 == 1 && i < 16 {
        dues[i] = number;
    }
    dues
}

// Behind a byte that is no digit the number is done, if there was one. Numbers are counted up to 100: no line has as many.
fn other_byte(s: &mut Numbers, b: u8)
    requires { IfSome s.old.number (λ value. value < 100000000) }
    ensures { s.new ≡ other_byte s.old b }
{
    let minus = b == b'-';
    let Some(value) = s.number else {
        s.minus = minus;
        return;
    };
    *s = Numbers {
        number: None,
        minus,
        done: if s.done < 100 { s.done + 1 } else { s.done },
        first: if s.done == 0 { value } else { s.first },
        dues: stored_at(s.dues, s.done, with_sign(value, s.minus)),
    };
}

// A digit goes behind the last seven.
fn with_digit(s: &mut Numbers, digit: u32)
    requires { digit < 10 }
    ensures { s.new ≡ with_digit s.old digit }
{
    let last_seven = s.number.unwrap_or(0) % 10000000;
    s.number = Some(last_seven * 10 + digit);
}

// One byte more.
fn step(s: &mut Numbers, b: u8)
    requires { IfSome s.old.number (λ value. value < 100000000) }
    ensures { (s.new ≡ stepped s.old b) × IfSome s.new.number (λ value. value < 100000000) }
{
    match b {
        b'0'..=b'9' => with_digit(s, u32::from(b - b'0')),
        _ => other_byte(s, b),
    }
}

// What the bytes of a line come to.
pub fn scan(line: &[u8]) -> Numbers
    ensures { result ≡ scanned line.now }
{
    let mut s = Numbers {
        number: None,
        minus: false,
        done: 0,
        first: 0,
        dues: [0; 16],
    };
    for b in line {
        step(&mut s, *b);
    }
    s
}
