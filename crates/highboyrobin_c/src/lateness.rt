// `hbr_least` for C.
ghost use Rattle.std.specs.Prelude.{◌≡◌, [], ◌∷◌, length};
ghost use Rattle.order.specs.Refusals.{judge};
ghost use Rattle.order_file.specs.File.{order_in};
ghost use Rattle.profile.specs.Least.{least_lateness};
ghost use Rattle.highboyrobin.specs.Results.{result_of};
ghost use Rattle.highboyrobin.specs.Calls.{least_call, PlanBy};

#[unsafe(no_mangle)]
pub extern "C" fn hbr_least(file: &[u8], rows: &mut [u32], answer: &mut [i32]) -> u32
    ensures value { result ≡ result_of (judge (least_call file.now (length rows.old) (length answer.old))) }
    ensures plan_by { PlanBy (judge (least_call file.now (length rows.old) (length answer.old)))
        (order_in file.now) (least_lateness (order_in file.now))
        (least_lateness (order_in file.now) ∷ [])
        rows.old rows.new answer.old answer.new }
{
    highboyrobin::lateness::hbr_least(file, rows, answer)
}
