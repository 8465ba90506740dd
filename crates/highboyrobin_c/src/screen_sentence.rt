// `hbr_screen_sentence` for C.
ghost use Rattle.std.specs.Prelude.{◌≡◌, [], ◌∷◌, pos, length};
ghost use Rattle.order.specs.Refusals.{judge, left_by};
ghost use Rattle.highboyrobin.specs.Results.{result_of};
ghost use Rattle.highboyrobin.specs.Calls.{line_from, sentence_call};
ghost use Rattle.highboyrobin.specs.ScreenCalls.{screened};

#[unsafe(no_mangle)]
pub extern "C" fn hbr_screen_sentence(
    file: &[u8],
    bound: i32,
    reason: &[i32],
    line: &mut [u8],
    answer: &mut [i32],
) -> u32
    ensures value { result ≡ result_of (judge (screened file.now
        (sentence_call file.now bound reason.now (length line.old) (length answer.old)))) }
    ensures line_after { line.new ≡ left_by (judge (screened file.now
        (sentence_call file.now bound reason.now (length line.old) (length answer.old))))
        (line_from file.now bound reason.now) line.old }
    ensures answer_after { answer.new ≡ left_by (judge (screened file.now
        (sentence_call file.now bound reason.now (length line.old) (length answer.old))))
        (pos (length (line_from file.now bound reason.now)) ∷ []) answer.old }
{
    highboyrobin::screen_sentence::hbr_screen_sentence(file, bound, reason, line, answer)
}
