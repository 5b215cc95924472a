// The order of keys.
ghost use Rattle.table.specs.Order.{Total};

// The order of keys is total.
pub fn total_order_stands() -> u8
    ensures { Total }
{
    0
}
