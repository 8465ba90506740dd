// One row into the lent buffer, joined to the last of its processor where that goes on as it (document 02, §2); one piece of a share
// onto a processor, and one share onto the processors. Each function serves this crate alone and has a `requires`.
ghost use Rattle.std.specs.Prelude.{◌≡◌, ◌+◌, ◌*◌, ◌<◌, ◌≤◌, [], ◌∷◌, length, MatchOption};
ghost use Rattle.wrap.specs.Filled.{row};
ghost use Rattle.layout.specs.Sheet.{Good, added, ending_job, standing};
ghost use Rattle.layout.specs.Laid.{Inside, Laid, Numbering, ShareLaid, behind, piece, portion, rows_from};

use super::{Place, Stretch, Written};

// The job that a processor ends with at a minute, where its last row is the one with this number, counted from 1; 0 is no row.
fn ends_with(rows: &[u32], row: usize, minute: u32) -> Option<u32>
    requires { (row < 100000) × (4 * row ≤ length rows.now) }
    ensures { MatchOption result (ending_job rows.now row minute ≡ 0) (λ job. ending_job rows.now row minute ≡ job) }
{
    if row == 0 || rows[4 * row - 1] != minute {
        return None;
    }
    Some(rows[4 * row - 4])
}

// One row more: the last row of its processor is lengthened where the processor ends with the row's job where the row begins; else
// the row stands behind all others.
fn add_row(rows: &mut [u32], written: &mut Written, job: u32, processor: u32, from: u32, to: u32)
    requires { Good (standing written.old rows.old) × (written.old.count < 100000) × (1 ≤ job) × (1 ≤ processor)
        × (processor ≤ 16) × (4 * written.old.count + 4 ≤ length rows.old) }
    ensures { standing written.new rows.new ≡ added (standing written.old rows.old) (row job processor from to) }
{
    let i = (processor - 1) as usize;
    let number = written.last[i];
    if ends_with(rows, number, from) == Some(job) {
        rows[4 * number - 1] = to;
    } else {
        let at = 4 * written.count;
        rows[at..at + 4].copy_from_slice(&[job, processor, from, to]);
        written.count += 1;
        written.last[i] = written.count;
    }
}

// One piece of a share, on the processor with this number; answers where the next one goes on: behind it, or at the next
// processor's beginning.
fn lay_piece(
    rows: &mut [u32],
    written: &mut Written,
    number: u32,
    stretch: Stretch,
    place: Place,
    job: u32,
    minutes: u32,
) -> Place
    requires { (place.processor < 16) × (written.old.count < 100000) × (place.at + minutes ≤ stretch.end) × (1 ≤ job)
        × (1 ≤ number) × (number ≤ 16) × (4 * written.old.count + 4 ≤ length rows.old)
        × Good (standing written.old rows.old) }
    ensures { (result ≡ behind stretch.start stretch.end place minutes)
        × Laid (piece number place job minutes ∷ []) [] (standing written.old rows.old)
        (standing written.new rows.new) }
{
    let to = place.at + minutes;
    add_row(rows, written, job, number, place.at, to);
    if to < stretch.end {
        return Place {
            processor: place.processor,
            at: to,
        };
    }
    Place {
        processor: place.processor + 1,
        at: stretch.start,
    }
}

// A share onto the processors from a place on: fill a processor to the stretch's end, then go on at the next one's
// beginning. No minutes are no share.
pub fn lay_share(
    rows: &mut [u32],
    written: &mut Written,
    processors: &[u32],
    stretch: Stretch,
    place: Place,
    job: u32,
    minutes: u32,
) -> Place
    requires { (length processors.now ≤ 16) × Numbering processors.now
        × Inside stretch.start stretch.end (length processors.now) place × (written.old.count < 90000) × (1 ≤ job)
        × (4 * (written.old.count + length (rows_from stretch.start stretch.end processors.now place (portion job minutes)))
        ≤ length rows.old)
        × Good (standing written.old rows.old) }
    ensures { ShareLaid stretch.start stretch.end processors.now place result (portion job minutes)
        (standing written.old rows.old) (standing written.new rows.new) }
{
    let mut next = place;
    let mut left = minutes;
    while next.processor < processors.len() && 0 < left {
        let number = processors[next.processor];
        let part = left.min(stretch.end - next.at);
        next = lay_piece(rows, written, number, stretch, next, job, part);
        left -= part;
    }
    next
}
