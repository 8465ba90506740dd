// The cases with ready minutes and windows: the rows asked for, a plan and the check.
use super::{print, print_checked, stream};
use order::{Caller, Order};
use timed::Times;

// The numbers of the rows that are lent at most.
const ROW_NUMBERS: usize = 32264;

// What each of these cases begins with.
#[derive(Clone, Copy)]
struct Timed {
    caller: Caller,
    order: Order,
    bound: i32,
    times: Times,
}

impl Timed {
    fn read(caller: Caller) -> Timed {
        let order = stream::order();
        let bound = stream::signed();
        let times = stream::times(order.jobs, order.processors);
        Timed {
            caller,
            order,
            bound,
            times,
        }
    }

    // Rows through the timed check.
    fn print_check(&self, rows: &[u32]) {
        print_checked(callers::timing::check_timed_for(
            self.caller,
            self.order,
            self.bound,
            self.times,
            rows,
        ));
    }
}

// How many rows are asked for.
pub fn asked_case(caller: Caller) {
    let case = Timed::read(caller);
    match callers::timing::rows_timed_for(caller, case.order, case.bound, case.times) {
        Ok(rows) => {
            print::text(b"asked");
            print::number(rows);
            print::text(b"\n");
        }
        Err(refusal) => print::refused(refusal),
    }
}

// A plan, with a row buffer of the stated length; and what the timed check says to its rows.
pub fn timed_case(caller: Caller) {
    let case = Timed::read(caller);
    let Some(room) = stream::room(ROW_NUMBERS) else {
        return;
    };
    let mut rows = [0u32; ROW_NUMBERS];
    plan_and_check(case, &mut rows[..room]);
}

// A plan in lent rows, and what the check says to them.
fn plan_and_check(case: Timed, rows: &mut [u32]) {
    match callers::timing::plan_timed_for(case.caller, case.order, case.bound, case.times, rows) {
        Ok(Some(count)) => {
            print::text(b"meets\n");
            if let Some(plan) = rows.get(..4 * (count as usize)) {
                case.print_check(plan);
            }
        }
        Ok(None) => print::text(b"tight\n"),
        Err(refusal) => print::refused(refusal),
    }
}

// Lent rows through the timed check.
pub fn watch_case(caller: Caller) {
    let case = Timed::read(caller);
    let mut rows = [0u32; ROW_NUMBERS];
    let n = stream::numbers(&mut rows);
    case.print_check(&rows[..n]);
}
