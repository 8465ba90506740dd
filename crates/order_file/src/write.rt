// The writer: refusals 1 to 7 with 13 after 6, then 9. Only `write_order` is a public entry point; the others serve it.
ghost use Rattle.std.specs.Prelude.{◌≡◌, ◌+◌, ◌*◌, ◌<◌, ◌≤◌, ◌++◌, length, take, drop};
ghost use Rattle.order.specs.Refusals.{judge, answer_by};
ghost use Rattle.order.specs.Table.{order_of};
ghost use Rattle.order_file.specs.File.{job_width, trailer_width, processor_bytes, bytes_of_job, job_bytes, trailer_bytes};
ghost use Rattle.order_file.specs.File.{file_length, write_rows, written_by, ReadBackBy};
ghost use Rattle.order_file.specs.Told.{written_told};

use super::bytes::{put2, put4, to_pattern};
use super::{JOB_WIDTH, TRAILER_WIDTH};
use order::accept::accept;
use order::{Order, Refusal};

// The processor list is stored from byte 0 on.
fn put_processors(order: Order, out: &mut [u8])
    requires { (order.processors ≤ 16) × (4 * order.processors ≤ length out.old) }
    ensures { out.new ≡ processor_bytes (order_of order).memories
        ++ drop (4 * order.processors) out.old }
{
    let n = order.processors as usize;
    for (i, memory) in order.memories[..n].iter().enumerate() {
        put4(out, 4 * i, *memory);
    }
}

// One job is stored at a place.
fn put_job(out: &mut [u8], at: usize, time: u32, due: i32, need: u32, maker: u32)
    requires { at + job_width ≤ length out.old }
    ensures { out.new ≡ take at out.old
        ++ (bytes_of_job (record { time = time; due = due; need = need; maker = maker }) ++ drop (at + job_width) out.old) }
{
    put4(out, at, time);
    put4(out, at + 4, to_pattern(due));
    put4(out, at + 8, need);
    put4(out, at + 12, maker);
}

// The job list is stored at a place.
fn put_jobs(order: Order, out: &mut [u8], at: usize)
    requires { (order.jobs ≤ 48) × (at ≤ 64) × (at + job_width * order.jobs ≤ length out.old) }
    ensures { out.new ≡ take at out.old
        ++ (job_bytes (order_of order).jobs ++ drop (at + job_width * order.jobs) out.old) }
{
    for j in 0..order.jobs as usize {
        put_job(
            out,
            at + JOB_WIDTH * j,
            order.times[j],
            order.dues[j],
            order.needs[j],
            order.makers[j],
        );
    }
}

// The trailer is stored at a place.
fn put_trailer(out: &mut [u8], at: usize, processors: u32, jobs: u32)
    requires { (processors ≤ 16) × (jobs ≤ 48) × (at + trailer_width ≤ length out.old) }
    ensures { out.new ≡ take at out.old
        ++ (trailer_bytes processors jobs ++ drop (at + trailer_width) out.old) }
{
    put4(out, at, 0);
    put4(out, at + 4, 4 * processors);
    put2(out, at + 8, processors);
    put2(out, at + 10, jobs);
}

// The file of an order, processors first, in a lent buffer: the rows of acceptance, then 9.
pub fn write_order(order: Order, out: &mut [u8]) -> Result<usize, Refusal>
    ensures result_value { written_told result
        ≡ answer_by (judge (write_rows (order_of order) (length out.old))) (file_length (order_of order)) }
    ensures out_after { out.new
        ≡ written_by (judge (write_rows (order_of order) (length out.old))) (order_of order) out.old }
    ensures read_back_by { ReadBackBy (judge (write_rows (order_of order) (length out.old))) (order_of order) out.new }
{
    accept(order)?;
    let jobs_at = 4 * order.processors as usize;
    let trailer_at = jobs_at + JOB_WIDTH * order.jobs as usize;
    let len = trailer_at + TRAILER_WIDTH;
    if out.len() < len {
        return Err(Refusal::BufferTooShort);
    }
    put_processors(order, out);
    put_jobs(order, out, jobs_at);
    put_trailer(out, trailer_at, order.processors, order.jobs);
    Ok(len)
}
