// Document 02's "classes found in one pass": the distinct memories downwards and the processors of each, from the processors by
// falling memory. `classes_of` serves the crates above; both have a `requires`.
ghost use Rattle.std.specs.Prelude.{◌≡◌, ◌≤◌, ◌<◌};
ghost use Rattle.order.specs.Sorted.{processor_order};
ghost use Rattle.order.specs.Table.{order_of, padded};
ghost use Rattle.table.specs.Passed.{listing, OneMore};

use super::{LastClass, Listing};
use order::Order;

// The last class with one processor more, of no more memory than any passed: one more of that class, or one class more.
fn with_processor(last: LastClass, memory: u32) -> LastClass
    requires { (last.number < 16) × (last.procs < 16) }
    ensures one_more { OneMore last memory result }
    ensures number_nonzero { (0 < result.number) × (result.number ≤ 16) }
{
    if last.number > 0 && last.memory == memory {
        return LastClass {
            procs: last.procs + 1,
            ..last
        };
    }
    LastClass {
        number: last.number + 1,
        memory,
        procs: 1,
    }
}

// The classes of an order with the processors of each.
pub fn classes_of(order: Order, by_memory: [u32; 16]) -> Listing
    requires { (order.processors ≤ 16) × (by_memory ≡ padded 16 (processor_order (order_of order))) }
    ensures { result ≡ listing (order_of order) }
{
    let n = order.processors as usize;
    let mut memories = [0u32; 16];
    let mut procs = [0u32; 16];
    let mut last = LastClass {
        number: 0,
        memory: 0,
        procs: 0,
    };
    for number in &by_memory[..n] {
        last = with_processor(last, order.memories[(*number - 1) as usize]);
        let count = last.number;
        memories[count - 1] = last.memory;
        procs[count - 1] = last.procs;
    }
    Listing {
        count: last.number,
        memories,
        procs,
    }
}
