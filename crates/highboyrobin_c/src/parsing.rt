// `hbr_parse` for C.
ghost use Rattle.std.specs.Prelude.{◌≡◌, length};
ghost use Rattle.order.specs.Refusals.{judge};
ghost use Rattle.highboyrobin.specs.Results.{result_of};
ghost use Rattle.highboyrobin.specs.Calls.{parse_call, parse_answer};

#[unsafe(no_mangle)]
pub extern "C" fn hbr_parse(file: &[u8], bound: i32, line: &[u8], answer: &mut [i32]) -> u32
    ensures value { result ≡ result_of (judge (parse_call file.now bound (length answer.old))) }
    ensures answer_after { answer.new ≡ parse_answer file.now bound line.now answer.old }
{
    highboyrobin::parsing::hbr_parse(file, bound, line, answer)
}
