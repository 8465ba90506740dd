// Which job goes on, and whom it can displace. Each function serves this crate alone and has a `requires`.
ghost use Rattle.std.specs.Prelude.{ℕ, suc, ◌*◌, ◌<◌, ◌≤◌, length, get_or};
ghost use Rattle.engine.specs.View.{PickedFirst, Aim, Found, Stands, row, flow_in, fill_in};
ghost use Rattle.amounts.specs.State.{Barred};

use super::instance::{Filling, Instance};
use super::slices::before_zero;

// Whom a job displaces: a job in a stretch.
#[derive(Clone, Copy)]
pub struct Push {
    pub stretch: usize,
    pub job: usize,
}

// The first job with something left.
pub fn pick(given: &Instance, filling: &Filling) -> Option<usize>
    requires { given.now.n < length filling.now.left.now }
    ensures { PickedFirst (row filling.now.left.now) given.now.n result }
{
    filling.left[..given.n].iter().position(|rest| 0 < *rest)
}

// Whether one of the jobs stands at the height g.
pub fn stands(given: &Instance, filling: &Filling, g: usize) -> bool
    requires { given.now.n ≤ length filling.now.height.now }
    ensures { Stands (row filling.now.height.now) given.now.n g result }
{
    filling.height[..given.n].contains(&g)
}

// The last job that one of height h can displace in stretch s, up to the class tight.
pub fn aim(given: &Instance, filling: &Filling, s: usize, tight: usize, h: usize) -> Option<usize>
    requires { (given.now.n < length given.now.class.now) × (given.now.n < length filling.now.height.now)
        × (s < given.now.q) × (suc given.now.n * given.now.q ≤ length filling.now.w.now) }
    ensures { Aim given.now.class.now filling.now.w.now filling.now.height.now given.now.n given.now.q s tight h result }
{
    let below = h.checked_sub(1)?;
    for i in (0..given.n + 1).rev() {
        if filling.height[i] == below && given.class[i] <= tight && 0 < filling.w[i * given.q + s] {
            return Some(i);
        }
    }
    None
}

// Whom job j displaces in the stretches below u, where it displaces nobody from u on; from the last to the first.
pub fn find(given: &Instance, filling: &Filling, j: usize, u: usize) -> Option<Push>
    requires j_lt_n { (j < given.now.n) × (u ≤ given.now.q)
        × (given.now.n < length given.now.class.now) × (given.now.n < length filling.now.height.now) }
    requires q_in_bounds { (given.now.n * given.now.q ≤ length given.now.cap.now)
        × (suc given.now.n * given.now.q ≤ length filling.now.w.now) × (given.now.q * given.now.m ≤ length filling.now.slack.now) }
    requires by_index { (a : ℕ) → a ≤ given.now.n → get_or given.now.class.now a 0 ≤ given.now.m }
    requires barred { Barred (flow_in given.now) (fill_in given.now filling.now) j u }
    ensures { Found (flow_in given.now) (fill_in given.now filling.now) j result }
{
    let c = given.class[j];
    let h = filling.height[j];
    for s in (0..u).rev() {
        let at = j * given.q + s;
        if filling.w[at] < given.cap[at] {
            let base = s * given.m;
            let tight = c + before_zero(&filling.slack[base + c..base + given.m]);
            if let Some(i) = aim(given, filling, s, tight, h) {
                return Some(Push { stretch: s, job: i });
            }
        }
    }
    None
}
