// The order of no processor and no job, which stands where none is answered.
ghost use Rattle.std.specs.Prelude.{◌≡◌};
ghost use Rattle.order.specs.Order.{no_order};
ghost use Rattle.order.specs.Table.{table_of};

use super::Order;

#[tactic(auto, unfolding(crate::specs::Table::table_of))]
pub fn no_order() -> Order
    ensures { result ≡ table_of no_order }
{
    Order {
        processors: 0,
        memories: [0u32; 16],
        jobs: 0,
        times: [0u32; 48],
        dues: [0i32; 48],
        needs: [0u32; 48],
        makers: [0u32; 48],
    }
}
