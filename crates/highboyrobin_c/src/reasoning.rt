// `hbr_reason` for C.
ghost use Rattle.std.specs.Prelude.{◌≡◌, length};
ghost use Rattle.order.specs.Refusals.{judge};
ghost use Rattle.highboyrobin.specs.Results.{result_of};
ghost use Rattle.highboyrobin.specs.Calls.{reason_call, reason_answer};

#[unsafe(no_mangle)]
pub extern "C" fn hbr_reason(file: &[u8], bound: i32, answer: &mut [i32]) -> u32
    ensures value { result ≡ result_of (judge (reason_call file.now bound (length answer.old))) }
    ensures answer_after { answer.new ≡ reason_answer file.now bound answer.old }
{
    highboyrobin::reasoning::hbr_reason(file, bound, answer)
}
