// `hbr_between` for C.
ghost use Rattle.std.specs.Prelude.{◌≡◌, length};
ghost use Rattle.order.specs.Refusals.{judge, left_by};
ghost use Rattle.highboyrobin.specs.BetweenCalls.{leasts_call, leasts_in};
ghost use Rattle.highboyrobin.specs.Results.{result_of};

#[unsafe(no_mangle)]
pub extern "C" fn hbr_between(file: &[u8], highs: &[u32], answer: &mut [i32]) -> u32
    ensures value { result ≡ result_of (judge (leasts_call file.now highs.now (length answer.old))) }
    ensures answer_after { answer.new
        ≡ left_by (judge (leasts_call file.now highs.now (length answer.old)))
        (leasts_in file.now highs.now) answer.old }
{
    highboyrobin::between::hbr_between(file, highs, answer)
}
