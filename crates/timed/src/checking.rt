// The timed check: the refusals of acceptance, 15, 16, 8, then 11; else yes or no. Only `check_timed` is a public entry point; the others
// serve it and have a `requires`.
ghost use Rattle.std.specs.Prelude.{◌≡◌, true, ◌/◌, ◌≤◌, length};
ghost use Rattle.order.specs.Refusals.{Accepted, bound_in_range, judge, answer_by};
ghost use Rattle.order.specs.Table.{order_of};
ghost use Rattle.plan.specs.Check.{rows_of, every, every_two, no_overlap};
ghost use Rattle.plan.specs.Inside.{row_of, Ranged};
ghost use Rattle.plan.specs.Told.{checked_told};
ghost use Rattle.timed.specs.Times.{times_of};
ghost use Rattle.timed.specs.Rows.{timed_check_rows};
ghost use Rattle.timed.specs.Check.{in_times, is_right_timed};
ghost use Rattle.timed.specs.Inside.{Named};

use super::Times;
use super::judging::accept_timed;
use order::{Order, Refusal};
use plan::Piece;
use plan::rows::{apart_among, jobs_whole, piece_at, rows_good};

// Whether a row begins and ends in its job's and its processor's time.
fn in_times(times: Times, piece: Piece) -> bool
    requires { Named (row_of piece) }
    ensures { result ≡ in_times (times_of times) (row_of piece) }
{
    let j = (piece.job - 1) as usize;
    let i = (piece.processor - 1) as usize;
    times.ready[j] <= piece.from && times.opens[i] <= piece.from && piece.to <= times.closes[i]
}

// Whether every row does.
fn rows_in_times(times: Times, rows: &[u32]) -> bool
    requires { (length rows.now ≤ 32256) × Ranged rows.now }
    ensures { result ≡ every (in_times (times_of times)) (rows_of rows.now) }
{
    (0..rows.len() / 4).all(|i| in_times(times, piece_at(rows, i)))
}

// Whether no two rows overlap that share a job or a processor.
fn many_apart(rows: &[u32]) -> bool
    requires { (length rows.now ≤ 32256) × Ranged rows.now }
    ensures { result ≡ every_two no_overlap (rows_of rows.now) }
{
    let n = rows.len() / 4;
    let mut a = [0u16; 8064];
    apart_among(rows, &mut a[..n])
}

// Whether the rows are a right plan that keeps the times: the four rules and that of the times, one after the other.
#[tactic(auto, unfolding(plan::specs::Check::is_right, crate::specs::Check::is_right_timed))]
fn right_timed(order: Order, bound: i32, times: Times, rows: &[u32]) -> bool
    requires { Accepted (order_of order) × (bound_in_range bound ≡ true) × (length rows.now ≤ 32256) }
    ensures { result ≡ is_right_timed (order_of order) bound (times_of times) rows.now }
{
    if !rows_good(order, bound, rows) {
        return false;
    }
    rows_in_times(times, rows) && many_apart(rows) && jobs_whole(order, rows)
}

// Whether the lent rows are a right plan for the order and the bound that keeps the times: rows in any order, four numbers to a row.
#[tactic(auto, unfolding(crate::specs::Rows::timed_check_rows, crate::specs::Rows::asked_rows, order::specs::Refusals::judge))]
pub fn check_timed(order: Order, bound: i32, times: Times, rows: &[u32]) -> Result<bool, Refusal>
    ensures { checked_told result
        ≡ answer_by (judge (timed_check_rows (order_of order) bound (times_of times) (length rows.now)))
        (is_right_timed (order_of order) bound (times_of times) rows.now) }
{
    accept_timed(order, bound, times)?;
    if 32256 < rows.len() {
        return Err(Refusal::TooManyRows);
    }
    Ok(right_timed(order, bound, times, rows))
}
