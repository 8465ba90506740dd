// The least reach: 1,000,001 more than the least lateness. All serve the crates above and have a `requires`.
ghost use Rattle.std.specs.Prelude.{◌≡◌, ◌≤◌};
ghost use Rattle.table.specs.Tabled.{Fine};
ghost use Rattle.reason.specs.Asked.{latest_of, least_reach_of};

use super::weight::table;
use stairs::completion::heaviest;
use table::Table;

// The largest of time and lead together: below it some job has too little time.
pub fn latest(o: Table) -> u32
    requires { Fine o }
    ensures { (result ≡ latest_of o) × (result ≤ 2100000) }
{
    (0..o.n).map(|j| o.times[j] + o.leads[j]).max().unwrap_or(0)
}

// The least reach at which every job has its time by its end and no staircase is overfull.
pub fn least_reach(o: Table) -> u32
    requires { Fine o }
    ensures { (result ≡ least_reach_of o) × (result ≤ 640000000) }
{
    let t = table(o);
    let mut reach = latest(o);
    let mut procs: u32 = 0;
    for k in 0..o.s {
        procs += o.procs[k];
        reach = reach.max(heaviest(&t, k, o.q).div_ceil(procs));
    }
    reach
}
