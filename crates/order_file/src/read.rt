// The reader: refusal 12, then 1 to 7 with 13 after 6. Only `read_order` is a public entry point; the others serve it, `read_trailer` and
// `read_counted`, which has a `requires`, the crates above too.
ghost use Rattle.std.specs.Prelude.{◌≡◌, ℕ, ◌+◌, ◌*◌, ◌<◌, ◌≤◌, length, pos, IfOk};
ghost use Rattle.order.specs.Refusals.{limits, judge, answer_by, count_rows};
ghost use Rattle.order.specs.Table.{table_of};
ghost use Rattle.order_file.specs.Bytes.{number4, signed};
ghost use Rattle.order_file.specs.File.{job_width, lists_agree, order_in, read_rows};
ghost use Rattle.order_file.specs.Told.{read_told, ReadBy};
ghost use Rattle.order_file.specs.Inside.{trailer_of, Within, padded_to, Placed};

use super::bytes::{all_signed, read2, read4};
use super::{JOB_WIDTH, LONGEST_FILE, Lists, TRAILER_WIDTH};
use order::accept::{accept, accept_counts};
use order::{Order, Refusal};

// Whether the lists lie one after the other from byte 0.
fn lists_agree(processors: usize, jobs: usize, processors_at: usize, jobs_at: usize) -> bool
    requires { (processors < 65536) × (jobs < 65536) }
    ensures { result ≡ lists_agree processors jobs processors_at jobs_at }
{
    let processors_first = processors_at == 0 && jobs_at == 4 * processors;
    let jobs_first = jobs_at == 0 && processors_at == JOB_WIDTH * jobs;
    processors_first || jobs_first
}

// The trailer of a file, where the lists and it agree.
pub fn read_trailer(file: &[u8]) -> Option<Lists>
    ensures value { result ≡ trailer_of file.now }
    ensures within { Within file.now result }
{
    let len = file.len();
    if len < TRAILER_WIDTH {
        return None;
    }
    if LONGEST_FILE < len {
        return None;
    }
    let at = len - TRAILER_WIDTH;
    let processors_at = read4(file, at) as usize;
    let jobs_at = read4(file, at + 4) as usize;
    let processors = read2(file, at + 8) as usize;
    let jobs = read2(file, at + 10) as usize;
    if 4 * processors + JOB_WIDTH * jobs + TRAILER_WIDTH != len {
        return None;
    }
    if !lists_agree(processors, jobs, processors_at, jobs_at) {
        return None;
    }
    Some(Lists {
        processors_at,
        jobs_at,
        processors,
        jobs,
    })
}

// A column of a list of n parts, `width` bytes a part: the number at `first` in each, 0 beyond the last.
fn column<const PLACES: usize>(list: &[u8], n: usize, width: usize, first: usize) -> [u32; PLACES]
    requires { (n ≤ PLACES) × (first + 4 ≤ width) × (width * n ≤ length list.now) }
    ensures { result ≡ padded_to PLACES n 0 (λ (i : ℕ). number4 list.now (width * i + first)) }
{
    let mut out = [0; PLACES];
    for i in 0..n {
        out[i] = read4(list, width * i + first);
    }
    out
}

// The order of two lists, each a part of the file that begins where the trailer points.
fn read_lists(file: &[u8], lists: Lists) -> Order
    requires processors_bound { (lists.processors ≤ 16) × (lists.jobs ≤ 48) }
    requires placed { Placed file.now lists.processors_at lists.jobs_at lists.processors lists.jobs }
    ensures { result ≡ table_of (order_in file.now) }
{
    let processors_end = lists.processors_at + 4 * lists.processors;
    let jobs_end = lists.jobs_at + JOB_WIDTH * lists.jobs;
    let processor_list = &file[lists.processors_at..processors_end];
    let job_list = &file[lists.jobs_at..jobs_end];
    Order {
        processors: lists.processors as u32,
        memories: column(processor_list, lists.processors, 4, 0),
        jobs: lists.jobs as u32,
        times: column(job_list, lists.jobs, JOB_WIDTH, 0),
        dues: all_signed(&column(job_list, lists.jobs, JOB_WIDTH, 4)),
        needs: column(job_list, lists.jobs, JOB_WIDTH, 8),
        makers: column(job_list, lists.jobs, JOB_WIDTH, 12),
    }
}

// The order of a file's lists as it stands: of its table the rows of the counts alone are judged.
pub fn read_counted(file: &[u8], lists: Lists) -> Result<Order, Refusal>
    requires { Placed file.now lists.processors_at lists.jobs_at lists.processors lists.jobs }
    ensures { ReadBy (judge (count_rows limits lists.processors lists.jobs)) (order_in file.now) result }
{
    accept_counts(lists.processors as u32, lists.jobs as u32)?;
    Ok(read_lists(file, lists))
}

// The order of a file: 12, then the rows of acceptance.
pub fn read_order(file: &[u8]) -> Result<Order, Refusal>
    ensures result_value { read_told result ≡ answer_by (judge (read_rows file.now)) (order_in file.now) }
    ensures order_value { IfOk result (λ t. t ≡ table_of (order_in file.now)) }
{
    let lists = read_trailer(file).ok_or(Refusal::BadFile)?;
    let order = read_counted(file, lists)?;
    accept(order)?;
    Ok(order)
}
