// The classes of an order with their processors.
use super::{print, stream};
use order::Order;

// An order through acceptance: its classes, or the refusal.
pub fn classes_case() {
    let order = stream::order();
    match order::accept::accept(order) {
        Ok(_) => print_classes(order),
        Err(refusal) => print::refused(refusal),
    }
}

// Of each class its memory and its processors.
fn print_classes(order: Order) {
    if 16 < order.processors {
        return;
    }
    let listing = table::passing::classes_of(order, order::orderings::processor_order(order));
    print::text(b"classes");
    for (memory, procs) in listing
        .memories
        .iter()
        .zip(&listing.procs)
        .take(listing.count)
    {
        print::number(*memory);
        print::number(*procs);
    }
    print::text(b"\n");
}
