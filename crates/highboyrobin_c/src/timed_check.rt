// `hbr_timed_check` for C.
ghost use Rattle.std.specs.Prelude.{◌≡◌, length};
ghost use Rattle.order.specs.Refusals.{judge};
ghost use Rattle.highboyrobin.specs.Results.{result_of};
ghost use Rattle.highboyrobin.specs.TimedCalls.{timed_check_call, timed_check_answer};

#[unsafe(no_mangle)]
pub extern "C" fn hbr_timed_check(
    file: &[u8],
    bound: i32,
    ready: &[u32],
    windows: &[u32],
    rows: &[u32],
    answer: &mut [i32],
) -> u32
    ensures value { result ≡ result_of (judge (timed_check_call file.now bound ready.now windows.now
        (length rows.now) (length answer.old))) }
    ensures answer_after { answer.new ≡ timed_check_answer file.now bound ready.now windows.now
        rows.now answer.old }
{
    highboyrobin::timed_check::hbr_timed_check(file, bound, ready, windows, rows, answer)
}
