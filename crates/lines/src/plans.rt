// The lines of a plan: the least lateness, a line for each row, their count. All serve this crate and have a `requires`.
ghost use Rattle.std.specs.Prelude.{◌+◌, ◌*◌, ◌≤◌, length};
ghost use Rattle.sums.specs.Lists.{tabulate};
ghost use Rattle.plan.specs.Check.{row_at};
ghost use Rattle.text.specs.Text.{Put};
ghost use Rattle.lines.specs.Lines.{least_line, piece_line, piece_lines, end_line, plan_lines};

use text::put::{put_bytes, put_number, put_signed};

fn put_least(out: &mut [u8], at: usize, lateness: i32) -> usize
    requires { at + 18 ≤ length out.old }
    ensures { Put out.old at (least_line lateness) out.new result × (result ≤ at + 18) }
{
    let a = put_bytes(out, at, b"least");
    let b = put_signed(out, a, lateness);
    put_bytes(out, b, b"\n")
}

fn put_row(out: &mut [u8], at: usize, job: u32, processor: u32, from: u32, to: u32) -> usize
    requires { at + 50 ≤ length out.old }
    ensures { Put out.old at (piece_line (record { job = job; processor = processor; from = from; to = to }))
        out.new result × (result ≤ at + 50) }
{
    let a = put_bytes(out, at, b"piece");
    let b = put_number(out, a, job);
    let c = put_number(out, b, processor);
    let d = put_number(out, c, from);
    let e = put_number(out, d, to);
    put_bytes(out, e, b"\n")
}

// The row at a place.
fn put_row_at(out: &mut [u8], at: usize, rows: &[u32], i: usize) -> usize
    requires { (i ≤ 3024) × (4 * i + 4 ≤ length rows.now) × (at + 50 ≤ length out.old) }
    ensures { Put out.old at (piece_line (row_at rows.now i)) out.new result × (result ≤ at + 50) }
{
    let k = 4 * i;
    put_row(out, at, rows[k], rows[k + 1], rows[k + 2], rows[k + 3])
}

fn put_rows(out: &mut [u8], at: usize, rows: &[u32], count: usize) -> usize
    requires { (count ≤ 3024) × (4 * count ≤ length rows.now) × (at + 50 * count ≤ length out.old) }
    ensures { Put out.old at (piece_lines (tabulate count (row_at rows.now))) out.new result
        × (result ≤ at + 50 * count) }
{
    let mut next = at;
    for i in 0..count {
        next = put_row_at(out, next, rows, i);
    }
    next
}

fn put_end(out: &mut [u8], at: usize, count: u32) -> usize
    requires { at + 15 ≤ length out.old }
    ensures { Put out.old at (end_line count) out.new result × (result ≤ at + 15) }
{
    let a = put_bytes(out, at, b"end");
    let b = put_number(out, a, count);
    put_bytes(out, b, b"\n")
}

// A plan of so many rows.
pub fn put_plan(out: &mut [u8], lateness: i32, rows: &[u32], count: u32) -> usize
    requires { (count ≤ 3024) × (4 * count ≤ length rows.now) × (151233 ≤ length out.old) }
    ensures { Put out.old 0 (plan_lines lateness (tabulate count (row_at rows.now))) out.new result
        × (result ≤ 151233) }
{
    let a = put_least(out, 0, lateness);
    let b = put_rows(out, a, rows, count as usize);
    put_end(out, b, count)
}
