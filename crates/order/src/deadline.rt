// A job's end, and the end cut off at minute 0: a row's `to` is at least 1, so it is at most the end exactly if it is at most this.
// `end_of` and `deadline` serve the crates above and have a `requires`.
ghost use Rattle.std.specs.Prelude.{◌≡◌, true};
ghost use Rattle.order.specs.Order.{end_at};
ghost use Rattle.order.specs.Refusals.{due_in_range, bound_in_range};
ghost use Rattle.order.specs.Deadline.{cut};

// The end itself, which may be negative: the close of the due minute, moved by the bound.
#[tactic(auto, unfolding(crate::specs::Order::end_at))]
pub fn end_of(due: i32, bound: i32) -> i32
    requires { (due_in_range due ≡ true) × (bound_in_range bound ≡ true) }
    ensures { result ≡ end_at bound due }
{
    due + bound + 1
}

pub fn deadline(due: i32, bound: i32) -> u32
    requires { (due_in_range due ≡ true) × (bound_in_range bound ≡ true) }
    ensures { result ≡ cut (end_at bound due) }
{
    end_of(due, bound).max(0) as u32
}

// Row 8 of the table.
pub fn bound_in_range(bound: i32) -> bool
    ensures { result ≡ bound_in_range bound }
{
    -10000000 <= bound && bound <= 10000000
}
