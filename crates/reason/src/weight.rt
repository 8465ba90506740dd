// What each class weighs at each due time: the minutes owed by its jobs, and its processors times the lead. All serve the
// search and the least reach and have a `requires`.
ghost use Rattle.std.specs.Prelude.{◌≡◌, [], ℕ, suc, ◌+◌, ◌*◌, ◌<◌, ◌≤◌, get_or};
ghost use Rattle.sums.specs.Arrays.{RowOf};
ghost use Rattle.table.specs.Tabled.{Fine};
ghost use Rattle.reason.specs.Asked.{owed_by, minutes_at, weight};

use table::Table;

// What one job owes by the time of the lead g.
pub fn owed(time: u32, lead: u32, g: u32) -> u32
    ensures { result ≡ owed_by time lead g }
{
    time.saturating_sub(g.saturating_sub(lead))
}

// One job more in what a class owes at every due time.
fn add_job(row: &mut [u32; 48], time: u32, lead: u32, grid: &[u32; 48])
    requires { (time ≤ 100000) × ((d : ℕ) → d < 48 → get_or row.old d 0 ≤ 4700000) }
    ensures { RowOf (λ d. get_or row.old d 0 + owed_by time lead (get_or grid.now d 0)) 48 row.new }
{
    for (d, sum) in row.iter_mut().enumerate() {
        *sum += owed(time, lead, grid[d]);
    }
}

// Document 01's minutes owed by the jobs of each class: 16 classes by 48 due times, filled once, job by job.
pub fn owed_table(t: Table) -> [[u32; 48]; 16]
    requires { Fine t }
    ensures { (i : ℕ) → i < 16 → RowOf (minutes_at t (suc i)) 48 (get_or result i []) }
{
    let mut rows = [[0u32; 48]; 16];
    for k in 0..t.n {
        let class = t.classes[k] as usize;
        add_job(&mut rows[class - 1], t.times[k], t.leads[k], &t.grid);
    }
    rows
}

// A class's processors times each lead, on top of what it owes.
pub fn weigh_row(owed: &[u32; 48], p: u32, grid: &[u32; 48]) -> [u32; 48]
    requires { (p ≤ 16) × ((d : ℕ) → d < 48 → (get_or owed.now d 0 ≤ 4800000) × (get_or grid.now d 0 ≤ 2000000)) }
    ensures { RowOf (λ d. get_or owed.now d 0 + p * get_or grid.now d 0) 48 result }
{
    std::array::from_fn(|d| owed[d] + p * grid[d])
}

// What each class weighs at each due time.
pub fn table(o: Table) -> [[u32; 48]; 16]
    requires { Fine o }
    ensures { (i : ℕ) → i < 16 → RowOf (weight o i) 48 (get_or result i []) }
{
    let mut t = owed_table(o);
    for (i, row) in t.iter_mut().enumerate() {
        *row = weigh_row(row, o.procs[i], &o.grid);
    }
    t
}
