// Which register an address names.
ghost use Rattle.std.specs.Prelude.{◌≡◌};
ghost use Rattle.registers.specs.Registers.{place_of};

use super::Place;

pub fn place_of(address: u8) -> Place
    ensures { result ≡ place_of address }
{
    match address {
        0 => Place::Command,
        1 => Place::Flag,
        2 => Place::Number,
        3 => Place::Allow,
        4..=11 => Place::Stored,
        12..=15 => Place::Lateness,
        16..=31 => Place::Held,
        32..=251 => Place::Stored,
        _ => Place::Nothing,
    }
}
