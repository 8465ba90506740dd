// The rows of one stretch, and of a whole plan, joined. `lay_plan` serves the crates above; both have a `requires`.
ghost use Rattle.std.specs.Prelude.{◌≡◌, ◌++◌, [], ◌+◌, ◌*◌, ◌<◌, ◌≤◌, length, drop};
ghost use Rattle.plan.specs.Check.{numbers_of};
ghost use Rattle.plan.specs.Join.{joined};
ghost use Rattle.wrap.specs.Flows.{amount_in};
ghost use Rattle.wrap.specs.Frame.{Rising};
ghost use Rattle.layout.specs.Planned.{Joinable, lent_frame, planned};
ghost use Rattle.layout.specs.Sheet.{Good, standing};
ghost use Rattle.layout.specs.Laid.{EndsTold, Laid, Numbered, Numbering, rows_between};

use super::opened::open_processors;
use super::rows::lay_share;
use super::{Place, Stretch, Written};
use table::Table;

// The rows of a stretch of these jobs on these processors, behind the rows written so far or joined to them. Leaves the number of each
// processor's last row, which tells the job that it ends the stretch with.
fn lay_stretch(
    rows: &mut [u32],
    written: &mut Written,
    processors: &[u32],
    jobs: &[u32],
    w: &[u32],
    q: usize,
    stretch: Stretch,
)
    requires { (length processors.now ≤ 16) × (length jobs.now ≤ 48) × (q ≤ 128) × (stretch.number < q)
        × (length jobs.now * q ≤ length w.now) × (stretch.start ≤ stretch.end) × (written.old.count < 50000)
        × Numbered (length jobs.now) jobs.now
        × (4 * (written.old.count + length (rows_between stretch.start stretch.end processors.now jobs.now
        (amount_in q w.now) stretch.number)) ≤ length rows.old)
        × Numbering processors.now × Good (standing written.old rows.old) }
    ensures laid { Laid (rows_between stretch.start stretch.end processors.now jobs.now (amount_in q w.now) stretch.number)
        [] (standing written.old rows.old) (standing written.new rows.new)
        × (written.new.count ≤ written.old.count + length jobs.now + length processors.now) }
    ensures ends_told { EndsTold (rows_between stretch.start stretch.end processors.now jobs.now (amount_in q w.now)
        stretch.number) stretch.end (standing written.old rows.old) (standing written.new rows.new) }
{
    let mut place = Place {
        processor: 0,
        at: stretch.start,
    };
    for &job in jobs {
        let minutes = w[(job - 1) as usize * q + stretch.number];
        if 0 < minutes {
            place = lay_share(rows, written, processors, stretch, place, job, minutes);
        }
    }
}

// The plan of amounts in a frame: all stretches, one after the other from row 0 on, each on the processors that are open in it, and
// joined; stretch s ends at marks[s], and the first begins at minute 0. Answers how many rows stand.
pub fn lay_plan(
    t: Table,
    marks: &[u32],
    q: usize,
    opens: &[u32],
    closes: &[u32],
    w: &[u32],
    rows: &mut [u32],
) -> usize
    requires m_bound { (t.m ≤ 16) × (t.n ≤ 48) × Numbered t.m t.by_memory × Numbered t.n t.by_need
        × (q ≤ 128) × (q ≤ length marks.now) × (t.m ≤ length opens.now) × (t.m ≤ length closes.now)
        × (t.n * q ≤ length w.now) × Rising (lent_frame q marks.now opens.now closes.now) }
    requires w_in_bounds { (4 * length (planned t q marks.now opens.now closes.now w.now) ≤ length rows.old)
        × Joinable (planned t q marks.now opens.now closes.now w.now) }
    ensures { (result ≡ length (joined (planned t q marks.now opens.now closes.now w.now)))
        × (rows.new
        ≡ numbers_of (joined (planned t q marks.now opens.now closes.now w.now))
        ++ drop (4 * length (joined (planned t q marks.now opens.now closes.now w.now)))
        rows.old) }
{
    let mut written = Written {
        count: 0,
        last: [0; 16],
    };
    let jobs = &t.by_need[..t.n];
    let mut start = 0;
    for s in 0..q {
        let end = marks[s];
        let kept = open_processors(t.by_memory, t.m, opens, closes, start, end);
        let processors = &kept.list[..kept.count];
        let stretch = Stretch {
            number: s,
            start,
            end,
        };
        lay_stretch(rows, &mut written, processors, jobs, w, q, stretch);
        start = end;
    }
    written.count
}
