// A job displaces others by the most that it can, until nothing of it is left or it rises. Each function serves this crate
// alone and has a `requires`.
ghost use Rattle.std.specs.Prelude.{ℕ, ◌+◌, ◌^◌, ◌<◌, ◌≤◌, length, get_or, ◌≡◌};
ghost use Rattle.engine.specs.View.{Amount, Shifted, ReadyFor, Advanced, Pushed, flow_in, fill_in};
ghost use Rattle.engine.specs.Run.{Displaced, DischargeRun};
ghost use Rattle.amounts.specs.State.{Able};

use super::instance::{Filling, Instance};
use super::moves::{Push, find};
use super::slices::{lower, raise, transfer};

// The most that job j can displace.
pub fn amount(
    cap: &[u32],
    w: &[u32],
    left: &[u32],
    slack: &[u32],
    j: usize,
    up: usize,
    down: usize,
) -> u32
    requires j_in_bounds { (j < length left.now) × (up < length cap.now) × (up < length w.now) × (down < length w.now) }
    requires up_bound { get_or w.now up 0 ≤ get_or cap.now up 0 }
    ensures { Amount cap.now w.now left.now slack.now j up down result }
{
    let most = left[j].min(cap[up] - w[up]).min(w[down]);
    slack.iter().fold(most, |d, spare| d.min(*spare))
}

// The slacks after d of class e gave way to class c.
pub fn reslack(xs: &mut [u32], base: usize, c: usize, e: usize, d: u32)
    requires c_in_bounds { (base + c ≤ length xs.old) × (base + e ≤ length xs.old) }
    requires by_index { (k : ℕ) → base + c ≤ k → k < base + e → d ≤ get_or xs.old k 0 }
    requires by_index_2 { (k : ℕ) → base + e ≤ k → k < base + c → get_or xs.old k 0 + d < 2 ^ 32 }
    ensures { Shifted xs.old xs.new base c e d }
{
    if c < e {
        lower(&mut xs[base + c..base + e], d);
    } else {
        raise(&mut xs[base + e..base + c], d);
    }
}

// Job j displaces job i in stretch s by the most that it can.
pub fn push(given: &Instance, filling: &mut Filling, j: usize, s: usize, i: usize)
    requires ready { ReadyFor given.now filling.old }
    requires nonzero { 0 < get_or filling.old.left.now j 0 }
    requires able { Able (flow_in given.now) (fill_in given.now filling.old) j i s }
    ensures same_reference { filling.new.w.ghost_name ≡ filling.old.w.ghost_name }
    ensures same_slack { filling.new.slack.ghost_name ≡ filling.old.slack.ghost_name }
    ensures same_left { filling.new.left.ghost_name ≡ filling.old.left.ghost_name }
    ensures same_height { filling.new.height.ghost_name ≡ filling.old.height.ghost_name }
    ensures ready_after { ReadyFor given.now filling.new }
    ensures pushed { Pushed (flow_in given.now) given.now.m
        (fill_in given.now filling.old) (fill_in given.now filling.new) j s }
    ensures displaced { Displaced (flow_in given.now) given.now.m
        (fill_in given.now filling.old) (fill_in given.now filling.new) j i s }
{
    let c = given.class[j];
    let e = given.class[i];
    let up = j * given.q + s;
    let down = i * given.q + s;
    let base = s * given.m;
    let w = &mut *filling.w;
    let slack = &mut *filling.slack;
    let left = &mut *filling.left;
    let between = &slack[base + c.min(e)..base + e];
    let d = amount(given.cap, w, left, between, j, up, down);
    transfer(w, up, down, d);
    transfer(left, i, j, d);
    reslack(slack, base, c, e, d);
}

// Job j displaces until nothing of it is left, or it rises by one.
pub fn discharge(given: &Instance, filling: &mut Filling, j: usize)
    requires ready { ReadyFor given.now filling.old }
    requires j_lt_n { (j < given.now.n) × (0 < get_or filling.old.left.now j 0)
        × (get_or filling.old.height.now j 0 ≤ given.now.n) }
    ensures same_reference { filling.new.w.ghost_name ≡ filling.old.w.ghost_name }
    ensures same_slack { filling.new.slack.ghost_name ≡ filling.old.slack.ghost_name }
    ensures same_left { filling.new.left.ghost_name ≡ filling.old.left.ghost_name }
    ensures same_height { filling.new.height.ghost_name ≡ filling.old.height.ghost_name }
    ensures ready_after { ReadyFor given.now filling.new }
    ensures advanced { Advanced (flow_in given.now) given.now.m
        (fill_in given.now filling.old) (fill_in given.now filling.new) }
    ensures discharge_run { DischargeRun (flow_in given.now) given.now.m j
        (fill_in given.now filling.old) (fill_in given.now filling.new) }
{
    let mut u = given.q;
    while 0 < filling.left[j] {
        let Some(Push { stretch, job }) = find(given, filling, j, u) else {
            filling.height[j] += 1;
            return;
        };
        push(given, filling, j, stretch, job);
        u = stretch + 1;
    }
}
