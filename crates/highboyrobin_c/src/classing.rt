// `hbr_classes` for C.
ghost use Rattle.std.specs.Prelude.{◌≡◌, [], ◌∷◌, pos, length};
ghost use Rattle.order.specs.Refusals.{judge, left_by};
ghost use Rattle.order_file.specs.File.{order_in};
ghost use Rattle.highboyrobin.specs.Results.{result_of};
ghost use Rattle.highboyrobin.specs.ClassCalls.{classes_call, class_count, class_pairs};

#[unsafe(no_mangle)]
pub extern "C" fn hbr_classes(file: &[u8], classes: &mut [u32], answer: &mut [i32]) -> u32
    ensures value { result ≡ result_of (judge (classes_call file.now (length classes.old)
        (length answer.old))) }
    ensures classes_after { classes.new ≡ left_by (judge (classes_call file.now (length classes.old)
        (length answer.old))) (class_pairs (order_in file.now)) classes.old }
    ensures answer_after { answer.new ≡ left_by (judge (classes_call file.now (length classes.old)
        (length answer.old))) (pos (class_count (order_in file.now)) ∷ []) answer.old }
{
    highboyrobin::classing::hbr_classes(file, classes, answer)
}
