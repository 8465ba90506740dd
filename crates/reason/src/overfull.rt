// The first overfull staircase at a reach (1,000,001 more than a bound). Both serve `tell` and have a `requires`.
ghost use Rattle.std.specs.Prelude.{◌≡◌, suc, ◌*◌, ◌<◌, ◌≤◌};
ghost use Rattle.order.specs.Lead.{most_reach};
ghost use Rattle.stairs.specs.Tables.{staircase_of};
ghost use Rattle.sums.specs.Arrays.{RowOf};
ghost use Rattle.table.specs.Tabled.{Fine};
ghost use Rattle.reason.specs.Asked.{procs_to, first_of};

use super::weight::table;
use stairs::Staircase;
use stairs::finding::find;
use table::Table;

// The room of 1 to 16 classes at a reach.
pub fn rooms_at(o: Table, reach: u32) -> [u32; 16]
    requires fine { Fine o }
    requires reach_le_most_reach { reach ≤ most_reach }
    ensures { RowOf (λ k. procs_to o (suc k) * reach) 16 result }
{
    let mut rooms = [0u32; 16];
    let mut procs: u32 = 0;
    for (k, room) in rooms.iter_mut().enumerate() {
        procs += o.procs[k];
        *room = procs * reach;
    }
    rooms
}

// The first overfull staircase at a reach.
pub fn first_overfull(o: Table, reach: u32) -> Option<Staircase>
    requires fine { Fine o }
    requires reach_le_most_reach { reach ≤ most_reach }
    ensures { result ≡ staircase_of (first_of o reach) }
{
    find(&table(o), &rooms_at(o, reach), o.s, o.q)
}
