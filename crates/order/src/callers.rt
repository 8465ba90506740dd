// What an order may have at most, and the number of the refusal for more: the limits belong to the call (document 02, §10).
ghost use Rattle.std.specs.Prelude.{◌≡◌, ◌≤◌};
ghost use Rattle.order.specs.Callers.{limits_of};

use super::{Caller, MOST_JOBS, MOST_PROCESSORS};

pub fn most_processors(caller: Caller) -> u32
    ensures { result ≡ (limits_of caller).processors }
{
    match caller {
        Caller::Dock => MOST_PROCESSORS,
        Caller::Screen => 4,
    }
}

pub fn most_jobs(caller: Caller) -> u32
    ensures { result ≡ (limits_of caller).jobs }
{
    match caller {
        Caller::Dock => MOST_JOBS,
        Caller::Screen => 12,
    }
}

pub fn over_processors(caller: Caller) -> u32
    ensures { (result ≡ (limits_of caller).over_processors) × (result ≤ 255) }
{
    match caller {
        Caller::Dock => 2,
        Caller::Screen => 21,
    }
}

pub fn over_jobs(caller: Caller) -> u32
    ensures { (result ≡ (limits_of caller).over_jobs) × (result ≤ 255) }
{
    match caller {
        Caller::Dock => 4,
        Caller::Screen => 20,
    }
}
