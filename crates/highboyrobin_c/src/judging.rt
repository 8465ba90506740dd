// `hbr_judge` for C.
ghost use Rattle.std.specs.Prelude.{◌≡◌, length};
ghost use Rattle.order.specs.Refusals.{judge, left_by};
ghost use Rattle.order_file.specs.File.{order_in};
ghost use Rattle.highboyrobin.specs.Results.{result_of};
ghost use Rattle.highboyrobin.specs.Calls.{judge_call, sizes_of};

#[unsafe(no_mangle)]
pub extern "C" fn hbr_judge(file: &[u8], answer: &mut [i32]) -> u32
    ensures value { result ≡ result_of (judge (judge_call file.now (length answer.old))) }
    ensures answer_after { answer.new ≡ left_by (judge (judge_call file.now (length answer.old)))
        (sizes_of (order_in file.now)) answer.old }
{
    highboyrobin::judging::hbr_judge(file, answer)
}
