// The engine: amounts over general caps and rooms, or the answer that a cut violates. `solve` serves the crates above and has
// a `requires`; the others serve it.
ghost use Rattle.std.specs.Prelude.{suc, ◌*◌, ◌<◌, ◌≤◌, ◌≡◌, length};
ghost use Rattle.engine.specs.View.{Sizes, ReadyFor, Answer, grid, flow_of, flow_in, fill_in};
ghost use Rattle.engine.specs.Start.{Given, IdleRow};
ghost use Rattle.engine.specs.Run.{FillRun, RunOf};

use super::advance::discharge;
use super::instance::{Filling, Instance};
use super::moves::{pick, stands};
use super::slices::copy;

// The idle job has the last room of each stretch.
pub fn idle_row(room: &[u32], w: &mut [u32], n: usize, q: usize, m: usize)
    requires { (0 < m) × (suc n * q ≤ length w.old) × (q * m ≤ length room.now) }
    ensures { IdleRow room.now w.old w.new n q m q }
{
    for s in 0..q {
        w[n * q + s] = room[s * m + (m - 1)];
    }
}

// Fills the amounts: true where nothing is left, and else there is a violating cut. Run.antt says in which turns.
pub fn fill(given: &Instance, filling: &mut Filling) -> bool
    requires { ReadyFor given.now filling.old }
    ensures same_reference { filling.new.w.ghost_name ≡ filling.old.w.ghost_name }
    ensures same_slack { filling.new.slack.ghost_name ≡ filling.old.slack.ghost_name }
    ensures same_left { filling.new.left.ghost_name ≡ filling.old.left.ghost_name }
    ensures same_height { filling.new.height.ghost_name ≡ filling.old.height.ghost_name }
    ensures answer { Answer (flow_in given.now) given.now.m (grid given.now.q filling.new.w.now) result }
    ensures fill_run { FillRun (flow_in given.now) given.now.m
        (fill_in given.now filling.old) (fill_in given.now filling.new) result }
{
    while let Some(j) = pick(given, filling) {
        let h = filling.height[j];
        if given.n < h {
            return false;
        }
        if 1 < h && !stands(given, filling, h - 1) {
            return false;
        }
        discharge(given, filling, j);
    }
    true
}

// Amounts for the jobs, those of the flow's run, or the answer that there is a violating cut.
pub fn solve(
    time: &[u32],
    class: &[usize],
    cap: &[u32],
    room: &[u32],
    w: &mut [u32],
    slack: &mut [u32],
    left: &mut [u32],
    height: &mut [usize],
    n: usize,
    q: usize,
    m: usize,
) -> bool
    requires sizes { Sizes n q m time.now class.now cap.now room.now w.old slack.old left.old height.old }
    requires given { Given n q m time.now class.now room.now }
    ensures answer { Answer (flow_of n q m time.now class.now cap.now room.now) m
        (grid q w.new) result }
    ensures run_of { RunOf (flow_of n q m time.now class.now cap.now room.now) m
        (grid q w.new) result }
{
    w[..n * q].fill(0);
    idle_row(room, w, n, q, m);
    copy(room, slack, q * m);
    left[..n].copy_from_slice(&time[..n]);
    left[n] = 0;
    height[..n].fill(1);
    height[n] = 0;
    let given = Instance {
        time,
        class,
        cap,
        room,
        n,
        q,
        m,
    };
    let mut filling = Filling {
        w,
        slack,
        left,
        height,
    };
    fill(&given, &mut filling)
}
