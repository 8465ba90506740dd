// `hbr_check` for C.
ghost use Rattle.std.specs.Prelude.{◌≡◌, length};
ghost use Rattle.order.specs.Refusals.{judge};
ghost use Rattle.highboyrobin.specs.Results.{result_of};
ghost use Rattle.highboyrobin.specs.Calls.{check_call, check_answer};

#[unsafe(no_mangle)]
pub extern "C" fn hbr_check(file: &[u8], bound: i32, rows: &[u32], answer: &mut [i32]) -> u32
    ensures value { result ≡ result_of (judge (check_call file.now bound (length rows.now)
        (length answer.old))) }
    ensures answer_after { answer.new ≡ check_answer file.now bound rows.now answer.old }
{
    highboyrobin::checking::hbr_check(file, bound, rows, answer)
}
