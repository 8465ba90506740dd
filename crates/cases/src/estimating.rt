// Times known only between a low and a high.
use super::{print, print_order, stream};
use estimate::{Estimate, Leasts};
use order::{Caller, Order, Refusal};

// An order, whose times are the lows, with its highs: the least lateness at both, and the first order met at a number.
pub fn between_case(caller: Caller) {
    let order = stream::order();
    let highs = stream::one_each(order.jobs);
    let number = stream::signed();
    let given = Estimate { order, highs };
    print_leasts(callers::estimating::least_between_for(caller, given));
    print_met(callers::estimating::order_between_for(caller, given, number));
}

// The line of the two numbers.
fn print_leasts(leasts: Result<Leasts, Refusal>) {
    match leasts {
        Ok(leasts) => {
            print::text(b"between");
            print::signed(leasts.low);
            print::signed(leasts.high);
            print::text(b"\n");
        }
        Err(refusal) => print::refused(refusal),
    }
}

// The order that is met, or that none is.
fn print_met(met: Result<Option<Order>, Refusal>) {
    match met {
        Ok(Some(order)) => print_order(order),
        Ok(None) => print::text(b"nowhere\n"),
        Err(refusal) => print::refused(refusal),
    }
}
