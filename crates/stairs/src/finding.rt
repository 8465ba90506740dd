// The first overfull staircase in ranking order: the fewest classes, then the earliest due time for class 1, then for
// class 2, and so on. A due time is taken as soon as the best completion shows that the staircase can still be made
// overfull. All serve the crate above and have a `requires`.
ghost use Rattle.std.specs.Prelude.{◌≡◌, ℕ, suc, ◌+◌, ◌<◌, ◌≤◌, get_or};
ghost use Rattle.stairs.specs.Places.{first_overfull_at, places};
ghost use Rattle.stairs.specs.Tables.{comp, first_from, put, cell, Small, Completed, Least, room_of, staircase_of};

use super::Staircase;
use super::completion::completions;

// The least due time of a class, at most `top`, that can still be completed; `top` where none below it can.
pub fn least(w: &[u32; 48], rest: &[u32; 48], acc: u32, room: u32, top: usize) -> usize
    requires top_bound { top < 48 }
    requires by_index { (e : ℕ) → e ≤ top → acc + get_or w.now e 0 + get_or rest.now e 0 < 2000000000 }
    ensures { Least (λ e. acc + get_or w.now e 0 + get_or rest.now e 0) room top result }
{
    (0..top)
        .find(|&e| room < acc + w[e] + rest[e])
        .unwrap_or(top)
}

// The staircase of k + 1 classes that begins at d.
pub fn complete(
    t: &[[u32; 48]; 16],
    c: &[[u32; 48]; 16],
    k: usize,
    d: usize,
    room: u32,
) -> [u32; 16]
    requires k_bound { (k < 16) × (d < 48) × Small t.now × Completed t.now (suc k) (suc d) k c.now }
    requires room_bound { room < cell t.now 0 d + comp (cell t.now) 1 k (suc d) }
    ensures { result ≡ places (put d (first_from (cell t.now) room (cell t.now 0 d) 1 k (suc d))) }
{
    let mut at = [0u32; 16];
    at[0] = d as u32;
    let mut acc = t[0][d];
    let mut top = d;
    for i in 1..=k {
        top = least(&t[i], &c[k - i], acc, room, top);
        at[i] = top as u32;
        acc += t[i][top];
    }
    at
}

// The first overfull staircase of at most s classes: the search stops there.
pub fn find(t: &[[u32; 48]; 16], rooms: &[u32; 16], s: usize, q: usize) -> Option<Staircase>
    requires { (s ≤ 16) × (q ≤ 48) × (0 < q) × Small t.now }
    ensures { result ≡ staircase_of (first_overfull_at (cell t.now) (room_of rooms.now) s q) }
{
    'search: {
        for k in 0..s {
            let c = completions(t, k, q);
            let room = rooms[k];
            for d in 0..q {
                if room < t[0][d] + c[k][d] {
                    break 'search Some(Staircase {
                        count: (k + 1) as u32,
                        at: complete(t, &c, k, d, room),
                    });
                }
            }
        }
        None
    }
}
