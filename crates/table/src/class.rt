// Document 01's classes: the last class whose memory still suffices for a need. All serve the crates above and have a `requires`.
ghost use Rattle.std.specs.Prelude.{◌≡◌, ℕ, ◌<◌, ◌≤◌, get_or};
ghost use Rattle.sums.specs.Arrays.{RowOf};
ghost use Rattle.sums.specs.Lists.{tabulate};
ghost use Rattle.order.specs.Class.{last_that_suffices, class_for, class_of};
ghost use Rattle.order.specs.Refusals.{Accepted};
ghost use Rattle.order.specs.Order.{job_of};
ghost use Rattle.order.specs.Sorted.{job_order};
ghost use Rattle.order.specs.Table.{order_of, padded};
ghost use Rattle.table.specs.Held.{number_at};
ghost use Rattle.table.specs.Passed.{listing};

use super::Listing;
use order::Order;

// The last class whose memory still suffices for a need, where those of the first `from` do; a need of 0 belongs to the last class.
pub fn class_for(memories: [u32; 16], count: usize, need: u32, from: usize) -> u32
    requires { (count ≤ 16) × (from ≤ count) × ((i : ℕ) → i < from → need ≤ get_or memories i 0) }
    ensures { result ≡ last_that_suffices need (tabulate count (λ (i : ℕ). get_or memories i 0)) }
{
    let first_short = (from..count).find(|k| memories[*k] < need);
    first_short.unwrap_or(count) as u32
}

// The class of the job at each place: by falling need no class falls, so each is looked for from the one before it on.
pub fn classes_of_jobs(order: Order, by_need: [u32; 48], classes: Listing) -> [u32; 48]
    requires { Accepted (order_of order) × (by_need ≡ padded 48 (job_order (order_of order))) × (classes ≡ listing (order_of order)) }
    ensures { RowOf (λ k. class_of (order_of order) (job_of (order_of order) (number_at (order_of order) k))) order.jobs result }
{
    let n = order.jobs as usize;
    let mut r = [0u32; 48];
    let mut class = 0;
    for k in 0..n {
        let need = order.needs[(by_need[k] - 1) as usize];
        class = class_for(classes.memories, classes.count, need, class as usize);
        r[k] = class;
    }
    r
}

// The class of each processor.
pub fn classes_of_processors(order: Order, classes: Listing) -> [u32; 16]
    requires { Accepted (order_of order) × (classes ≡ listing (order_of order)) }
    ensures { RowOf (λ i. class_for (order_of order) (get_or order.memories i 0)) order.processors result }
{
    let mut r = [0u32; 16];
    for i in 0..order.processors as usize {
        r[i] = class_for(classes.memories, classes.count, order.memories[i], 0);
    }
    r
}
