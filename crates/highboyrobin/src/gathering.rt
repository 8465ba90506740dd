// An order from lists of numbers, four to a job. `order_from` serves hbr_write alone and has a `requires`.
ghost use Rattle.std.specs.Prelude.{◌≡◌, ◌≤◌, length};
ghost use Rattle.order.specs.Table.{order_of};
ghost use Rattle.highboyrobin.specs.Calls.{order_from};

use super::lists::{column_of, number_at};
use order::Order;
use order_file::bytes::all_signed;

// The order of two lists.
pub fn order_from(memories: &[u32], jobs: &[u32]) -> Order
    requires { (length memories.now ≤ 16) × (length jobs.now ≤ 192) }
    ensures { order_of result ≡ order_from memories.now jobs.now }
{
    let n = jobs.len() / 4;
    let jobs = &jobs[..4 * n];
    Order {
        processors: memories.len() as u32,
        memories: std::array::from_fn(|i| number_at(memories, i)),
        jobs: n as u32,
        times: column_of(jobs, 4, 0),
        dues: all_signed(&column_of(jobs, 4, 1)),
        needs: column_of(jobs, 4, 2),
        makers: column_of(jobs, 4, 3),
    }
}
