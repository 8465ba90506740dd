// Minutes owed and minutes on hand of a staircase. Both serve this crate alone and have a `requires`.
ghost use Rattle.std.specs.Prelude.{◌≡◌, ◌≤◌, length};
ghost use Rattle.order.specs.Lead.{most_reach};
ghost use Rattle.table.specs.Tabled.{Fine};
ghost use Rattle.reason.specs.Asked.{owes_by};
ghost use Rattle.sentence.specs.Inside.{StepsReached, owed_to, hand_to};

use super::Sums;
use reason::weight::owed;
use table::Table;
use table::lead::lead_of;

// What the jobs of a class owe by the time of the lead g.
fn class_owes(t: Table, class: u32, g: u32) -> u32
    requires { Fine t }
    ensures { (result ≡ owes_by t class g) × (result ≤ 4800000) }
{
    let mut owes: u32 = 0;
    for j in 0..t.n {
        if t.classes[j] == class {
            owes += owed(t.times[j], t.leads[j], g);
        }
    }
    owes
}

// The two sums of due times that are reached, one for each class from the first on.
pub fn sums_of(t: Table, reach: u32, dues: &[i32]) -> Sums
    requires { Fine t × (reach ≤ most_reach) × (length dues.now ≤ 16) × StepsReached reach dues.now }
    ensures { (result.owed ≡ owed_to t dues.now) × (result.on_hand ≡ hand_to t reach dues.now) × (result.owed ≤ 76800000) }
{
    let mut owed: u32 = 0;
    let mut on_hand: u32 = 0;
    for (i, due) in dues.iter().enumerate() {
        let lead = lead_of(*due);
        owed += class_owes(t, i as u32 + 1, lead);
        on_hand += t.procs[i] * (reach - lead);
    }
    Sums { owed, on_hand }
}
