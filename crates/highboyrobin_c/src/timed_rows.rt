// `hbr_timed_rows` for C.
ghost use Rattle.std.specs.Prelude.{◌≡◌, length};
ghost use Rattle.order.specs.Refusals.{judge};
ghost use Rattle.highboyrobin.specs.Results.{result_of};
ghost use Rattle.highboyrobin.specs.TimedCalls.{timed_rows_call, timed_rows_answer};

#[unsafe(no_mangle)]
pub extern "C" fn hbr_timed_rows(
    file: &[u8],
    bound: i32,
    ready: &[u32],
    windows: &[u32],
    answer: &mut [i32],
) -> u32
    ensures value { result ≡ result_of (judge (timed_rows_call file.now bound ready.now windows.now
        (length answer.old))) }
    ensures answer_after { answer.new ≡ timed_rows_answer file.now bound ready.now windows.now
        answer.old }
{
    highboyrobin::timed_rows::hbr_timed_rows(file, bound, ready, windows, answer)
}
