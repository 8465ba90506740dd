// A line, put into a buffer. All serve this crate and those above; all but `all_zero` have a `requires`.
ghost use Rattle.std.specs.Prelude.{◌≡◌, true, ◌+◌, ◌≤◌, pos, length};
ghost use Rattle.std.specs.List.{list_all};
ghost use Rattle.std.specs.Ordering.{int_eq};
ghost use Rattle.order.specs.Refusals.{Accepted, bound_in_range};
ghost use Rattle.order.specs.Table.{order_of};
ghost use Rattle.profile.specs.Reason.{stairs};
ghost use Rattle.profile.specs.Search.{found};
ghost use Rattle.text.specs.Text.{Put};
ghost use Rattle.reason.specs.declared.Reason.TheVariants.{Stairs};
ghost use Rattle.std.specs.Prelude.{Some};
ghost use Rattle.sentence.specs.Handed.{handed_by, handed};
ghost use Rattle.sentence.specs.Inside.{job_composed};
ghost use Rattle.sentence.specs.Line.{job_text, class_text, between, classes_from, sums_text, composed};

use super::standing::weigh;
use order::Order;
use order::deadline::end_of;
use reason::{Reason, Why};
use table::making::table_of;
use table::passing::classes_of;
use text::put::{put_bytes, put_number, put_signed};

// Minutes owed and minutes on hand.
fn put_sums(out: &mut [u8], at: usize, owed: u32, on_hand: i32) -> usize
    requires { at + 38 ≤ length out.old }
    ensures { Put out.old at (sums_text owed on_hand) out.new result × (result ≤ at + 38) }
{
    let a = put_bytes(out, at, b": owed");
    let b = put_number(out, a, owed);
    let c = put_bytes(out, b, b", on hand");
    put_signed(out, c, on_hand)
}

// A job with its time and its end.
fn put_job(out: &mut [u8], job: u32, time: u32, end: i32) -> usize
    requires { 48 ≤ length out.old }
    ensures { Put out.old 0 (job_text job time end) out.new result × (result ≤ 48) }
{
    let a = put_bytes(out, 0, b"job");
    let b = put_number(out, a, job);
    let c = put_bytes(out, b, b": time");
    let d = put_number(out, c, time);
    let e = put_bytes(out, d, b", end");
    put_signed(out, e, end)
}

// A class's memory with its due time.
fn put_class(out: &mut [u8], at: usize, memory: u32, due: i32) -> usize
    requires { at + 33 ≤ length out.old }
    ensures { Put out.old at (class_text memory due) out.new result × (result ≤ at + 33) }
{
    let a = put_bytes(out, at, b"memory");
    let b = put_number(out, a, memory);
    let c = put_bytes(out, b, b" due");
    put_signed(out, c, due)
}

// What stands between a class and the one before it.
fn put_between(out: &mut [u8], at: usize, before: usize) -> usize
    requires { at + 2 ≤ length out.old }
    ensures { Put out.old at (between before) out.new result × (result ≤ at + 2) }
{
    if before == 0 {
        return at;
    }
    put_bytes(out, at, b", ")
}

// Each class, from the first on.
fn put_classes(out: &mut [u8], memories: [u32; 16], dues: &[i32]) -> usize
    requires { (length dues.now ≤ 16) × (560 ≤ length out.old) }
    ensures { Put out.old 0 (classes_from memories 0 dues.now) out.new result × (result ≤ 560) }
{
    let mut next: usize = 0;
    for (i, due) in dues.iter().enumerate() {
        let behind = put_between(out, next, i);
        next = put_class(out, behind, memories[i], *due);
    }
    next
}

fn all_zero(dues: &[i32]) -> bool
    ensures { result ≡ list_all (λ d. int_eq d (pos 0)) dues.now }
{
    dues.iter().all(|due| *due == 0)
}

// The line of a job over its end; nothing of one that is not, or with another time.
fn job_line(order: Order, bound: i32, job: u32, time: u32, out: &mut [u8]) -> usize
    requires { Accepted (order_of order) × (bound_in_range bound ≡ true) × (86 ≤ length out.old) }
    ensures { Put out.old 0 (job_composed (order_of order) bound job time) out.new result × (result ≤ 86) }
{
    if job == 0 || order.jobs < job {
        return 0;
    }
    let i = (job - 1) as usize;
    if order.times[i] != time {
        return 0;
    }
    let end = end_of(order.dues[i], bound);
    if time as i32 <= end {
        return 0;
    }
    let behind = put_job(out, job, time, end);
    put_sums(out, behind, time, end)
}

// The line of a staircase that stands; nothing of another.
fn stairs_line(order: Order, bound: i32, dues: &[i32], out: &mut [u8]) -> usize
    requires { Accepted (order_of order) × (bound_in_range bound ≡ true) × (length dues.now ≤ 16) × (598 ≤ length out.old) }
    ensures { Put out.old 0 (composed (order_of order) bound (found (stairs dues.now))) out.new result
        × (result ≤ 598) }
{
    let t = table_of(order);
    let Some(sums) = weigh(order, t, bound, dues) else {
        return 0;
    };
    let memories = classes_of(order, t.by_memory).memories;
    let behind = put_classes(out, memories, dues);
    put_sums(out, behind, sums.owed, sums.on_hand as i32)
}

// The line of as many classes as are counted; nothing where a due time stands beyond them.
fn counted_line(order: Order, bound: i32, count: u32, dues: [i32; 16], out: &mut [u8]) -> usize
    requires { Accepted (order_of order) × (bound_in_range bound ≡ true) × (598 ≤ length out.old) }
    ensures { Put out.old 0 (composed (order_of order) bound (handed_by (order_of order) (Some (Stairs count)) dues))
        out.new result × (result ≤ 598) }
{
    if 16 < count {
        return 0;
    }
    let (told, beyond) = dues.split_at(count as usize);
    if !all_zero(beyond) {
        return 0;
    }
    stairs_line(order, bound, told, out)
}

// The line of a reason that is handed in, at the beginning of a buffer.
pub fn put_line(order: Order, bound: i32, why: Why, out: &mut [u8]) -> usize
    requires { Accepted (order_of order) × (bound_in_range bound ≡ true) × (598 ≤ length out.old) }
    ensures { Put out.old 0 (composed (order_of order) bound (handed (order_of order) why)) out.new result
        × (result ≤ 598) }
{
    let dues = why.dues;
    let Some(reason) = why.reason else {
        return 0;
    };
    match reason {
        Reason::Job(job, time) => {
            if !all_zero(&dues) {
                return 0;
            }
            job_line(order, bound, job, time, out)
        }
        Reason::Stairs(count) => counted_line(order, bound, count, dues, out),
    }
}
