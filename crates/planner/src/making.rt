// A plan where there is no reason against the bound: amounts by the engine, rows by the wrap. It serves this crate alone and has
// a `requires`.
ghost use Rattle.std.specs.Prelude.{◌≤◌, length};
ghost use Rattle.planner.specs.Making.{Makeable, MadeBy};

use allot::filling::fill_amounts;
use layout::stretches::lay_plan;
use table::Table;
use table::lead::{minutes_at, reach_of};
use table::places::ends_at;

pub fn make_plan(t: Table, bound: i32, rows: &mut [u32]) -> usize
    requires { Makeable t bound (length rows.old) }
    ensures { MadeBy t bound rows.old rows.new result × (result ≤ 3024) }
{
    let reach = reach_of(bound);
    let leads = t.leads;
    let numbers = t.by_need;
    let grid = t.grid;
    let deadlines = ends_at(leads, numbers, t.n, reach);
    let marks = minutes_at(grid, reach);
    let ready = [0u32; 48];
    let opens = [0u32; 16];
    let closes = [reach; 16];
    let mut cap = [0u32; 2304];
    let mut room = [0u32; 816];
    let mut slack = [0u32; 816];
    let mut w = [0u32; 2352];
    fill_amounts(
        t, &marks, t.q, &ready, &deadlines, &opens, &closes, &mut cap, &mut room, &mut slack,
        &mut w,
    );
    lay_plan(t, &marks, t.q, &opens, &closes, &w, rows)
}
