// A reason from the numbers of hbr_reason. All serve hbr_sentence alone; `dues_from` and `why_from` have a `requires`.
ghost use Rattle.std.specs.Prelude.{◌≡◌, ℕ, ◌+◌, ◌≤◌, pos, length, get_or};
ghost use Rattle.sums.specs.Lists.{tabulate};
ghost use Rattle.highboyrobin.specs.Calls.{tightness_from, why_from};

use reason::{Reason, Why};

// Its kind, with the job and its time or with the count of classes; none where a number is not of this kind.
fn tightness_from(kind: i32, which: i32, time: i32) -> Option<Reason>
    ensures { result ≡ tightness_from kind which time }
{
    if which < 0 {
        return None;
    }
    if time < 0 {
        return None;
    }
    if kind == 1 {
        return Some(Reason::Job(which as u32, time as u32));
    }
    if kind != 2 {
        return None;
    }
    if time != 0 {
        return None;
    }
    Some(Reason::Stairs(which as u32))
}

// Its sixteen due times.
fn dues_from(numbers: &[i32]) -> [i32; 16]
    requires { 19 ≤ length numbers.now }
    ensures { result ≡ tabulate 16 (λ (i : ℕ). get_or numbers.now (3 + i) (pos 0)) }
{
    std::array::from_fn(|i| numbers[3 + i])
}

pub fn why_from(numbers: &[i32]) -> Why
    requires { 19 ≤ length numbers.now }
    ensures { result ≡ why_from numbers.now }
{
    let dues = dues_from(numbers);
    Why {
        reason: tightness_from(numbers[0], numbers[1], numbers[2]),
        dues,
    }
}
