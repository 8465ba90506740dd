// Rows of lent numbers, four to a row, and the four rules of a right plan. Each function serves the checks, here and in the crates above,
// and has a `requires`; `rows_right` and `rows_apart` are for 3,024 rows, all others for 8,064.
ghost use Rattle.std.specs.Prelude.{◌≡◌, suc, ◌+◌, ◌-◌, ◌*◌, ◌/◌, ◌%◌, ◌<◌, ◌≤◌, true, ◌&&◌, eqb, leb, length};
ghost use Rattle.sums.specs.Lists.{tabulate};
ghost use Rattle.order.specs.Order.{job_count, end_at};
ghost use Rattle.order.specs.Deadline.{cut};
ghost use Rattle.order.specs.Refusals.{Accepted, due_in_range, bound_in_range};
ghost use Rattle.order.specs.Table.{order_of};
ghost use Rattle.plan.specs.Plan.{Row};
ghost use Rattle.plan.specs.Check.{rows_of, every, every_two, well_formed, by_end, no_overlap, whole_job, is_right};
ghost use Rattle.plan.specs.Inside.{row_of, piece_at, row_read, Ranged, EachLength};

use super::Piece;
use order::Order;

// The four numbers of a whole row.
pub fn piece_at(rows: &[u32], i: usize) -> Piece
    requires { (i < 8064) × (4 * i + 4 ≤ length rows.now) }
    ensures { result ≡ piece_at rows.now i }
{
    let at = 4 * i;
    Piece {
        job: rows[at],
        processor: rows[at + 1],
        from: rows[at + 2],
        to: rows[at + 3],
    }
}

// Whether a row names a job and a processor that fit, and goes forward.
fn well_formed(order: Order, piece: Piece) -> bool
    requires { (order.processors ≤ 16) × (order.jobs ≤ 48) }
    ensures { result ≡ well_formed (order_of order) (row_of piece) }
{
    if !(1..=order.jobs).contains(&piece.job)
        || !(1..=order.processors).contains(&piece.processor)
    {
        return false;
    }
    let need = order.needs[(piece.job - 1) as usize];
    let memory = order.memories[(piece.processor - 1) as usize];
    need <= memory && piece.from < piece.to
}

// The row at a place, if it is whole and well formed.
fn row_at(order: Order, rows: &[u32], i: usize) -> Option<Piece>
    requires { (order.processors ≤ 16) × (order.jobs ≤ 48) × (i < 8064) }
    ensures { result ≡ row_read (order_of order) rows.now i }
{
    if rows.len() < 4 * i + 4 {
        return None;
    }
    let piece = piece_at(rows, i);
    well_formed(order, piece).then_some(piece)
}

// Whether a row ends by the end of a job with this due time, cut off at minute 0.
fn by_end(due: i32, bound: i32, to: u32) -> bool
    requires { (due_in_range due ≡ true) × (bound_in_range bound ≡ true) }
    ensures { result ≡ leb to (cut (end_at bound due)) }
{
    to <= order::deadline::deadline(due, bound)
}

// Whether every row is well formed and ends by its job's end, none being left over.
pub fn rows_good(order: Order, bound: i32, rows: &[u32]) -> bool
    requires { Accepted (order_of order) × (bound_in_range bound ≡ true) × (length rows.now ≤ 32256) }
    ensures { result ≡ (eqb (length rows.now % 4) 0
        && every (λ (r : Row). well_formed (order_of order) r && by_end (order_of order) bound r) (rows_of rows.now)) }
{
    for i in 0..rows.len().div_ceil(4) {
        let Some(piece) = row_at(order, rows, i) else {
            return false;
        };
        let at = (piece.job - 1) as usize;
        if !by_end(order.dues[at], bound, piece.to) {
            return false;
        }
    }
    true
}

// Whether no two rows overlap that share a job or a processor. A number is lent for each row, to be written over.
pub fn apart_among(rows: &[u32], a: &mut [u16]) -> bool
    requires { (length rows.now ≤ 32256) × (length a.old ≡ length rows.now / 4) × Ranged rows.now }
    ensures { result ≡ every_two no_overlap (rows_of rows.now) }
{
    spans::apart_by(rows, 0, a) && spans::apart_by(rows, 1, a)
}

// Whether no two rows overlap that share a job or a processor.
fn rows_apart(rows: &[u32]) -> bool
    requires { (length rows.now ≤ 12096) × Ranged rows.now }
    ensures { result ≡ every_two no_overlap (rows_of rows.now) }
{
    let n = rows.len() / 4;
    let mut a = [0u16; 3024];
    apart_among(rows, &mut a[..n])
}

// The length of a row that goes forward.
fn length_of(piece: Piece) -> u64
    requires { piece.from < piece.to }
    ensures { (result ≡ piece.to - piece.from) × (result < 4294967296) }
{
    u64::from(piece.to - piece.from)
}

// The lengths of each job's rows, added up.
fn job_lengths(rows: &[u32]) -> [u64; 48]
    requires { (length rows.now ≤ 32256) × Ranged rows.now }
    ensures { EachLength result rows.now }
{
    let mut totals = [0u64; 48];
    for i in 0..rows.len() / 4 {
        let piece = piece_at(rows, i);
        let j = (piece.job - 1) as usize;
        totals[j] += length_of(piece);
    }
    totals
}

// Whether the lengths of each job's rows add up to its time.
pub fn jobs_whole(order: Order, rows: &[u32]) -> bool
    requires { (order.jobs ≤ 48) × (length rows.now ≤ 32256) × Ranged rows.now }
    ensures { result ≡ every (whole_job (order_of order) (rows_of rows.now))
        (tabulate (job_count (order_of order)) suc) }
{
    let totals = job_lengths(rows);
    (0..order.jobs as usize).all(|j| totals[j] == u64::from(order.times[j]))
}

// Whether the rows are a right plan: the four rules, one after the other.
pub fn rows_right(order: Order, bound: i32, rows: &[u32]) -> bool
    requires { Accepted (order_of order) × (bound_in_range bound ≡ true) × (length rows.now ≤ 12096) }
    ensures { result ≡ is_right (order_of order) bound rows.now }
{
    rows_good(order, bound, rows) && rows_apart(rows) && jobs_whole(order, rows)
}
