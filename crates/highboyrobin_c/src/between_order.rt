// `hbr_between_order` for C.
ghost use Rattle.std.specs.Prelude.{◌≡◌, [], ◌∷◌, pos, length};
ghost use Rattle.order.specs.Refusals.{judge, left_by};
ghost use Rattle.estimate.specs.Estimate.{order_met};
ghost use Rattle.highboyrobin.specs.BetweenCalls.{estimate_in, order_call, file_in, BackBy};
ghost use Rattle.highboyrobin.specs.Results.{result_of};

#[unsafe(no_mangle)]
pub extern "C" fn hbr_between_order(
    file: &[u8],
    highs: &[u32],
    number: i32,
    order: &mut [u8],
    answer: &mut [i32],
) -> u32
    ensures value { result ≡ result_of (judge (order_call file.now highs.now number (length order.old)
        (length answer.old))) }
    ensures order_after { order.new ≡ left_by (judge (order_call file.now highs.now number
        (length order.old) (length answer.old)))
        (file_in file.now highs.now number) order.old }
    ensures back_by { BackBy (judge (order_call file.now highs.now number (length order.old)
        (length answer.old))) (order_met (estimate_in file.now highs.now) number)
        order.new }
    ensures answer_after { answer.new ≡ left_by (judge (order_call file.now highs.now number
        (length order.old) (length answer.old)))
        (pos (length (file_in file.now highs.now number)) ∷ []) answer.old }
{
    highboyrobin::between_order::hbr_between_order(file, highs, number, order, answer)
}
