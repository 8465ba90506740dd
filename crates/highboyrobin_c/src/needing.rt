// `hbr_needs` for C.
ghost use Rattle.std.specs.Prelude.{◌≡◌, [], ◌∷◌, pos, length};
ghost use Rattle.order.specs.Refusals.{judge, left_by};
ghost use Rattle.needs.specs.NeedTable.{needs_of};
ghost use Rattle.highboyrobin.specs.NeedCalls.{needs_call};
ghost use Rattle.highboyrobin.specs.Results.{result_of};

#[unsafe(no_mangle)]
pub extern "C" fn hbr_needs(
    table: &[u32],
    lengths: &[u32],
    needs: &mut [u32],
    answer: &mut [i32],
) -> u32
    ensures value { result ≡ result_of (judge (needs_call table.now lengths.now (length needs.old)
        (length answer.old))) }
    ensures needs_after { needs.new ≡ left_by (judge (needs_call table.now lengths.now
        (length needs.old) (length answer.old)))
        (needs_of table.now lengths.now) needs.old }
    ensures answer_after { answer.new ≡ left_by (judge (needs_call table.now lengths.now
        (length needs.old) (length answer.old)))
        (pos (length lengths.now) ∷ []) answer.old }
{
    highboyrobin::needing::hbr_needs(table, lengths, needs, answer)
}
