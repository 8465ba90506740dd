// `hbr_write` for C.
ghost use Rattle.std.specs.Prelude.{◌≡◌, [], ◌∷◌, pos, length};
ghost use Rattle.order.specs.Refusals.{judge, left_by};
ghost use Rattle.order_file.specs.File.{file_length, written_by, ReadBackBy};
ghost use Rattle.highboyrobin.specs.Results.{result_of};
ghost use Rattle.highboyrobin.specs.Calls.{order_from, write_call};

#[unsafe(no_mangle)]
pub extern "C" fn hbr_write(
    memories: &[u32],
    jobs: &[u32],
    file: &mut [u8],
    answer: &mut [i32],
) -> u32
    ensures value { result ≡ result_of (judge (write_call memories.now jobs.now (length file.old)
        (length answer.old))) }
    ensures file_after { file.new ≡ written_by (judge (write_call memories.now jobs.now
        (length file.old) (length answer.old)))
        (order_from memories.now jobs.now) file.old }
    ensures read_back_by { ReadBackBy (judge (write_call memories.now jobs.now (length file.old)
        (length answer.old))) (order_from memories.now jobs.now) file.new }
    ensures answer_after { answer.new ≡ left_by (judge (write_call memories.now jobs.now
        (length file.old) (length answer.old)))
        (pos (file_length (order_from memories.now jobs.now)) ∷ []) answer.old }
{
    highboyrobin::writing::hbr_write(memories, jobs, file, answer)
}
