// `hbr_timed_plan` for C.
ghost use Rattle.std.specs.Prelude.{◌≡◌, length};
ghost use Rattle.order.specs.Refusals.{judge};
ghost use Rattle.order_file.specs.File.{order_in};
ghost use Rattle.highboyrobin.specs.Results.{result_of};
ghost use Rattle.highboyrobin.specs.TimedCalls.{times_in, timed_plan_call, TimedPlanBy};

#[unsafe(no_mangle)]
pub extern "C" fn hbr_timed_plan(
    file: &[u8],
    bound: i32,
    ready: &[u32],
    windows: &[u32],
    rows: &mut [u32],
    answer: &mut [i32],
) -> u32
    ensures value { result ≡ result_of (judge (timed_plan_call file.now bound ready.now windows.now
        (length rows.old) (length answer.old))) }
    ensures timed_plan_by { TimedPlanBy (judge (timed_plan_call file.now bound ready.now windows.now
        (length rows.old) (length answer.old))) (order_in file.now) bound
        (times_in ready.now windows.now)
        rows.old rows.new answer.old answer.new }
{
    highboyrobin::timed_plan::hbr_timed_plan(file, bound, ready, windows, rows, answer)
}
