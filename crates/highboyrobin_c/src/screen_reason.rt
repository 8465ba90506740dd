// `hbr_screen_reason` for C.
ghost use Rattle.std.specs.Prelude.{◌≡◌, length};
ghost use Rattle.order.specs.Refusals.{judge, left_by};
ghost use Rattle.order_file.specs.File.{order_in};
ghost use Rattle.profile.specs.Search.{reason_of};
ghost use Rattle.highboyrobin.specs.Results.{result_of};
ghost use Rattle.highboyrobin.specs.Calls.{reason_call, reason_numbers};
ghost use Rattle.highboyrobin.specs.ScreenCalls.{screened};

#[unsafe(no_mangle)]
pub extern "C" fn hbr_screen_reason(file: &[u8], bound: i32, answer: &mut [i32]) -> u32
    ensures value { result ≡ result_of (judge (screened file.now
        (reason_call file.now bound (length answer.old)))) }
    ensures answer_after { answer.new ≡ left_by (judge (screened file.now
        (reason_call file.now bound (length answer.old))))
        (reason_numbers (order_in file.now) (reason_of (order_in file.now) bound)) answer.old }
{
    highboyrobin::screen_reason::hbr_screen_reason(file, bound, answer)
}
