// `hbr_screen_judge` for C.
ghost use Rattle.std.specs.Prelude.{◌≡◌, length};
ghost use Rattle.order.specs.Refusals.{judge, left_by};
ghost use Rattle.order_file.specs.File.{order_in};
ghost use Rattle.highboyrobin.specs.Results.{result_of};
ghost use Rattle.highboyrobin.specs.Calls.{judge_call, sizes_of};
ghost use Rattle.highboyrobin.specs.ScreenCalls.{screened};

#[unsafe(no_mangle)]
pub extern "C" fn hbr_screen_judge(file: &[u8], answer: &mut [i32]) -> u32
    ensures value { result ≡ result_of (judge (screened file.now
        (judge_call file.now (length answer.old)))) }
    ensures answer_after { answer.new ≡ left_by (judge (screened file.now
        (judge_call file.now (length answer.old)))) (sizes_of (order_in file.now))
        answer.old }
{
    highboyrobin::screen_judge::hbr_screen_judge(file, answer)
}
