// A plan of a table in the frame of its changes: amounts by the engine, rows by the wrap; or the answer that there is none. It serves this
// crate alone and has a `requires`.
ghost use Rattle.std.specs.Prelude.{length};
ghost use Rattle.timed.specs.Making.{Makeable, MadeBy};

use super::{Changes, Times};
use allot::filling::fill_amounts;
use layout::stretches::lay_plan;
use table::Table;
use table::lead::reach_of;
use table::places::ends_at;

pub fn make_timed(
    t: Table,
    bound: i32,
    times: Times,
    changes: Changes,
    rows: &mut [u32],
) -> Option<u32>
    requires { Makeable t bound times changes (length rows.old) }
    ensures { MadeBy t bound times changes rows.old rows.new result }
{
    let leads = t.leads;
    let numbers = t.by_need;
    let until = ends_at(leads, numbers, t.n, reach_of(bound));
    let marks = changes.marks;
    let ready = times.ready;
    let opens = times.opens;
    let closes = times.closes;
    let q = changes.count;
    let mut cap = [0u32; 6144];
    let mut room = [0u32; 2176];
    let mut slack = [0u32; 2176];
    let mut w = [0u32; 6272];
    if !fill_amounts(
        t, &marks, q, &ready, &until, &opens, &closes, &mut cap, &mut room, &mut slack, &mut w,
    ) {
        return None;
    }
    Some(lay_plan(t, &marks, q, &opens, &closes, &w, rows) as u32)
}
