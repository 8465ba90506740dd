// Refusals as numbers: what is printed and what is returned have them from here.
ghost use Rattle.std.specs.Prelude.{◌≡◌, ◌≤◌};
ghost use Rattle.order.specs.Table.{refusal_told, number_by, carried_by};

use super::Refusal;
use super::callers::{over_jobs, over_processors};

// A refusal's number.
pub fn number_of(refusal: Refusal) -> u32
    ensures { (result ≡ number_by (refusal_told refusal)) × (result ≤ 255) }
{
    match refusal {
        Refusal::NoProcessor => 1,
        Refusal::TooManyProcessors(caller) => over_processors(caller),
        Refusal::NoJob => 3,
        Refusal::TooManyJobs(caller) => over_jobs(caller),
        Refusal::TimeOutOfRange(_) => 5,
        Refusal::DueOutOfRange(_) => 6,
        Refusal::MakerOutOfRange(_) => 13,
        Refusal::FitsNoProcessor(_) => 7,
        Refusal::BoundOutOfRange => 8,
        Refusal::BufferTooShort => 9,
        Refusal::TooManyRows => 11,
        Refusal::BadFile => 12,
        Refusal::BookFull => 14,
        Refusal::ReadyOutOfRange(_) => 15,
        Refusal::BadWindow(_) => 16,
        Refusal::LowAboveHigh(_) => 19,
    }
}

// What it carries, 0 where it carries nothing.
pub fn carried_of(refusal: Refusal) -> u32
    ensures { result ≡ carried_by (refusal_told refusal) }
{
    match refusal {
        Refusal::TimeOutOfRange(number)
        | Refusal::DueOutOfRange(number)
        | Refusal::MakerOutOfRange(number)
        | Refusal::FitsNoProcessor(number)
        | Refusal::ReadyOutOfRange(number)
        | Refusal::BadWindow(number)
        | Refusal::LowAboveHigh(number) => number,
        _ => 0,
    }
}
