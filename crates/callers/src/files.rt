// The reader and the writer by the caller's limits. `accept_file_for` serves them and the crate above.
ghost use Rattle.std.specs.Prelude.{◌≡◌, length, IfOk};
ghost use Rattle.order.specs.Refusals.{judge, answer_by};
ghost use Rattle.order.specs.Table.{order_of, table_of, acceptance_told};
ghost use Rattle.order.specs.Callers.{limits_of, rows_for};
ghost use Rattle.order_file.specs.File.{order_in, read_rows, write_rows, file_length, written_by, ReadBackBy};
ghost use Rattle.order_file.specs.Told.{read_told, written_told};
ghost use Rattle.callers.specs.Trailers.{trailer_rows};

use order::accept::accept_counts_for;
use order::{Caller, Order, Refusal};
use order_file::read::{read_order, read_trailer};
use order_file::write::write_order;

// 12, then the counts by the caller's limits: what a trailer alone tells of a file.
pub fn accept_file_for(caller: Caller, file: &[u8]) -> Result<(), Refusal>
    ensures { acceptance_told result ≡ judge (trailer_rows (limits_of caller) file.now) }
{
    let lists = read_trailer(file).ok_or(Refusal::BadFile)?;
    accept_counts_for(caller, lists.processors as u32, lists.jobs as u32)
}

pub fn read_order_for(caller: Caller, file: &[u8]) -> Result<Order, Refusal>
    ensures result_value { read_told result ≡ answer_by (judge (rows_for caller (order_in file.now) (read_rows file.now)))
        (order_in file.now) }
    ensures order_value { IfOk result (λ t. t ≡ table_of (order_in file.now)) }
{
    accept_file_for(caller, file)?;
    read_order(file)
}

pub fn write_order_for(caller: Caller, order: Order, out: &mut [u8]) -> Result<usize, Refusal>
    ensures result_value { written_told result ≡ answer_by (judge (rows_for caller (order_of order)
        (write_rows (order_of order) (length out.old)))) (file_length (order_of order)) }
    ensures out_after { out.new ≡ written_by (judge (rows_for caller (order_of order)
        (write_rows (order_of order) (length out.old)))) (order_of order) out.old }
    ensures read_back_by { ReadBackBy (judge (rows_for caller (order_of order)
        (write_rows (order_of order) (length out.old)))) (order_of order) out.new }
{
    accept_counts_for(caller, order.processors, order.jobs)?;
    write_order(order, out)
}
