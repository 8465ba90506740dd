// A table in a frame as the engine reads it: flat caps and rooms, times and classes with those of the idle job. Each function serves
// this crate alone and has a `requires`.
ghost use Rattle.std.specs.Prelude.{◌≡◌, ◌&&◌, suc, ◌+◌, ◌-◌, ◌*◌, ◌<◌, ◌≤◌, leb, length, get_or, take, sum as sum_of};
ghost use Rattle.sums.specs.Sum.{sum};
ghost use Rattle.sums.specs.Arrays.{RowOf};
ghost use Rattle.sums.specs.Lists.{only};
ghost use Rattle.layout.specs.Laid.{Numbered};
ghost use Rattle.allot.specs.Flows.{cap_at, cap_on, room_on};
ghost use Rattle.allot.specs.Tables.{count_of, Upwards, Small, Kinds, Counted, Rows, Times, Classes};

use layout::opened::{is_open, open_processors};
use table::Table;

// What a job may have of a stretch: all of it where it lies in the job's interval, and else nothing.
pub fn cap_of(ready: u32, until: u32, start: u32, end: u32) -> u32
    requires { start ≤ end }
    ensures { result ≡ only (leb ready start && leb end until) (end - start) }
{
    if is_open(ready, until, start, end) {
        end - start
    } else {
        0
    }
}

// The caps of a job, one for each stretch.
pub fn put_caps_row(row: &mut [u32], marks: &[u32], ready: u32, until: u32)
    requires { Upwards (length row.old) marks.now × (length row.old ≤ length marks.now) }
    ensures { RowOf (cap_at marks.now ready until) (length row.old) row.new }
{
    let mut start = 0;
    for (s, cap) in row.iter_mut().enumerate() {
        let end = marks[s];
        *cap = cap_of(ready, until, start, end);
        start = end;
    }
}

// The caps of all jobs.
pub fn put_caps(cap: &mut [u32], marks: &[u32], q: usize, ready: &[u32], until: &[u32], n: usize)
    requires { Upwards q marks.now × (q ≤ length marks.now) × (n ≤ length ready.now) × (n ≤ length until.now)
        × (n ≤ 48) × (q ≤ 128) × (n * q ≤ length cap.old) }
    ensures { Rows cap.new n q (cap_on marks.now ready.now until.now) }
{
    for j in 0..n {
        put_caps_row(&mut cap[j * q..(j + 1) * q], marks, ready[j], until[j]);
    }
}

// Of the first n of these processors, how many are of each class, class 1 first.
pub fn count_kinds(list: [u32; 16], n: usize, kinds: [u32; 16]) -> [u32; 16]
    requires { (n ≤ 16) × Kinds 16 kinds (take n list) }
    ensures { Counted result kinds (take n list) }
{
    let mut counts = [0; 16];
    for &i in &list[..n] {
        let kind = kinds[(i - 1) as usize];
        counts[(kind - 1) as usize] += 1;
    }
    counts
}

// How many processors these classes have.
pub fn processors_in(counts: &[u32]) -> u32
    requires { sum_of counts.now ≤ 16 }
    ensures { result ≡ sum_of counts.now }
{
    counts.iter().sum()
}

// The rooms of a stretch: for no class, for the first, for the first two, ..
pub fn put_rooms_row(row: &mut [u32], counts: &[u32; 16], minutes: u32)
    requires { (length row.old ≤ 17) × (sum (length row.old - 1) (count_of counts.now) ≤ 16) × (minutes ≤ 176000016) }
    ensures { RowOf (λ k. sum k (count_of counts.now) * minutes) (length row.old) row.new }
{
    for (k, room) in row.iter_mut().enumerate() {
        *room = processors_in(&counts[..k]) * minutes;
    }
}

// The rooms of all stretches: in each, the processors open in it times its length.
pub fn put_rooms(
    room: &mut [u32],
    t: &Table,
    marks: &[u32],
    q: usize,
    opens: &[u32],
    closes: &[u32],
)
    requires m_bound { (t.now.m ≤ 16) × (t.now.s ≤ 16) × (q ≤ 128) × Numbered t.now.m t.now.by_memory
        × Kinds t.now.s t.now.kinds (take t.now.m t.now.by_memory) × Upwards q marks.now × (q ≤ length marks.now)
        × (t.now.m ≤ length opens.now) × (t.now.m ≤ length closes.now) × (q * suc t.now.s ≤ length room.old) }
    requires small { Small q marks.now }
    ensures { Rows room.new q (suc t.now.s)
        (room_on (take t.now.m t.now.by_memory) t.now.kinds marks.now opens.now closes.now) }
{
    let rooms = t.s + 1;
    let mut start = 0;
    for s in 0..q {
        let end = marks[s];
        let kept = open_processors(t.by_memory, t.m, opens, closes, start, end);
        let counts = count_kinds(kept.list, kept.count, t.kinds);
        let row = &mut room[s * rooms..(s + 1) * rooms];
        put_rooms_row(row, &counts, end - start);
        start = end;
    }
}

// What the open processors have in all stretches: the last of the m rooms of each, together.
pub fn idle_minutes(room: &[u32], q: usize, m: usize) -> u32
    requires { (0 < m) × (m ≤ 17) × (q ≤ 128) × (q * m ≤ length room.now)
        × (sum q (λ s. get_or room.now (s * m + (m - 1)) 0) < 4294967296) }
    ensures { result ≡ sum q (λ s. get_or room.now (s * m + (m - 1)) 0) }
{
    let mut total = 0;
    for s in 0..q {
        total += room[s * m + (m - 1)];
    }
    total
}

// The times, and behind the last that of the idle job.
pub fn put_times(time: &mut [u32], times: &[u32; 48], n: usize, idle: u32)
    requires { (n ≤ 48) × (suc n ≤ length time.old) }
    ensures { Times n times.now idle time.new }
{
    time[..n].copy_from_slice(&times[..n]);
    time[n] = idle;
}

// The classes, and behind the last that of the idle job.
pub fn put_classes(class: &mut [usize], classes: [u32; 48], n: usize, last: usize)
    requires { (n ≤ 48) × (last ≤ 16) × (suc n ≤ length class.old) }
    ensures { Classes n classes last class.new }
{
    for (j, &job_class) in classes[..n].iter().enumerate() {
        class[j] = job_class as usize;
    }
    class[n] = last + 1;
}
