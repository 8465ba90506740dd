// The table of an order. It serves the crates above and has a `requires`.
ghost use Rattle.order.specs.Lead.{last_due};
ghost use Rattle.order.specs.Refusals.{Accepted};
ghost use Rattle.order.specs.Table.{order_of};
ghost use Rattle.table.specs.Tabled.{Tabled};

use super::Table;
use super::class::{classes_of_jobs, classes_of_processors};
use super::distinct::distinct_down;
use super::lead::leads_of;
use super::passing::classes_of;
use super::places::by_place;
use order::Order;
use order::orderings::{job_order, processor_order};

pub fn table_of(order: Order) -> Table
    requires { Accepted (order_of order) }
    ensures { Tabled last_due (order_of order) result }
{
    let n = order.jobs as usize;
    let by_memory = processor_order(order);
    let by_need = job_order(order);
    let classes = classes_of(order, by_memory);
    let procs = classes.procs;
    let leads = leads_of(order);
    let dues = distinct_down(&leads, n);
    let times = order.times;
    let grid = dues.at;
    Table {
        n,
        m: order.processors as usize,
        s: classes.count,
        q: dues.count,
        times: by_place(times, by_need, n),
        classes: classes_of_jobs(order, by_need, classes),
        leads: by_place(leads, by_need, n),
        kinds: classes_of_processors(order, classes),
        procs,
        grid,
        by_memory,
        by_need,
    }
}
