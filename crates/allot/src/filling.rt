// The engine on a table in a frame: it takes the jobs in input order, not as they lie in the table. `fill_amounts` serves the crates above
// and has a `requires`.
ghost use Rattle.std.specs.Prelude.{suc};
ghost use Rattle.layout.specs.Planned.{frame_lent};
ghost use Rattle.engine.specs.View.{grid, Answer};
ghost use Rattle.engine.specs.Run.{RunOf};
ghost use Rattle.allot.specs.Flows.{flow_on, Sized, Lent};

use super::tables::{idle_minutes, put_caps, put_classes, put_rooms, put_times};
use table::Table;
use table::places::by_number;

// The amounts of the run on a table in a frame, in `w`, a row of as many numbers as there are stretches for each job; or the answer that
// a cut violates. Stretch s ends at marks[s], the first begins at minute 0. What w holds behind the jobs' rows is left free, and so is
// what the caps, the rooms and the slack hold, which are lent to be written over.
pub fn fill_amounts(
    t: Table,
    marks: &[u32],
    q: usize,
    ready: &[u32],
    until: &[u32],
    opens: &[u32],
    closes: &[u32],
    cap: &mut [u32],
    room: &mut [u32],
    slack: &mut [u32],
    w: &mut [u32],
) -> bool
    requires sized { Sized t (frame_lent q marks.now ready.now until.now opens.now closes.now) }
    requires lent { Lent t q marks.now ready.now until.now opens.now closes.now cap.old room.old slack.old w.old }
    ensures answer { Answer (flow_on t (frame_lent q marks.now ready.now until.now
        opens.now closes.now)) (suc t.s) (grid q w.new) result }
    ensures run_of { RunOf (flow_on t (frame_lent q marks.now ready.now until.now
        opens.now closes.now)) (suc t.s) (grid q w.new) result }
{
    let times = by_number(t.times, t.by_need, t.n);
    let classes = by_number(t.classes, t.by_need, t.n);
    put_caps(cap, marks, q, ready, until, t.n);
    put_rooms(room, &t, marks, q, opens, closes);
    let mut time = [0; 49];
    put_times(&mut time, &times, t.n, idle_minutes(room, q, t.s + 1));
    let mut class = [0; 49];
    put_classes(&mut class, classes, t.n, t.s);
    let mut left = [0; 49];
    let mut height = [0; 49];
    engine::filling::solve(
        &time,
        &class,
        cap,
        room,
        w,
        slack,
        &mut left,
        &mut height,
        t.n,
        q,
        t.s + 1,
    )
}
