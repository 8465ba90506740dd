// Composing: the line of a reason, whoever hands it in. The refusals of acceptance, 8, then 9 where the line is longer than the
// buffer.
ghost use Rattle.std.specs.Prelude.{◌≡◌, ◌≤◌, length};
ghost use Rattle.order.specs.Refusals.{judge, answer_by, left_by};
ghost use Rattle.order.specs.Table.{order_of};
ghost use Rattle.sentence.specs.Handed.{handed};
ghost use Rattle.sentence.specs.Line.{composed};
ghost use Rattle.sentence.specs.Told.{compose_rows, composed_told, length_told};

use super::line::put_line;
use order::accept::accept;
use order::deadline::bound_in_range;
use order::{Order, Refusal};
use reason::Why;
use text::put::put_bytes;

// The line goes into the lent buffer, and its length is answered; where no reason stands it is empty.
pub fn compose(order: Order, bound: i32, why: Why, line: &mut [u8]) -> Result<u32, Refusal>
    ensures result_value { composed_told result ≡ answer_by (judge (compose_rows (order_of order) bound why (length line.old)))
        (length (composed (order_of order) bound (handed (order_of order) why))) }
    ensures line_after { line.new ≡ left_by (judge (compose_rows (order_of order) bound why (length line.old)))
        (composed (order_of order) bound (handed (order_of order) why)) line.old }
    ensures result_bound { length_told result ≤ 598 }
{
    accept(order)?;
    if !bound_in_range(bound) {
        return Err(Refusal::BoundOutOfRange);
    }
    let mut text = [0u8; 598];
    let n = put_line(order, bound, why, &mut text);
    if line.len() < n {
        return Err(Refusal::BufferTooShort);
    }
    put_bytes(line, 0, &text[..n]);
    Ok(n as u32)
}
