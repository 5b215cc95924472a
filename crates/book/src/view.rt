// What a book shows.
ghost use Rattle.std.specs.Prelude.{◌≡◌, ◌-◌, take, drop, length, min};
ghost use Rattle.book.specs.Kept.{kept_roles};

use crate::order_row::OrderRow;
use crate::tables::Book;
use reader::source::ValueRow;
use reading::role::Role;
use text::part::{front, part};

impl Book {
    // The bytes of its line.
    pub fn line(&self) -> &[u8]
        ensures { result.now ≡ take self.now.fill.bytes self.now.bytes }
    {
        front(&self.bytes, self.fill.bytes)
    }

    // The role of each word.
    pub fn roles(&self) -> &[Role]
        ensures { result.now ≡ kept_roles self.now }
    {
        front(&self.roles, self.fill.words)
    }

    // The rows of its orders.
    pub fn orders(&self) -> &[OrderRow]
        ensures rows { result.now ≡ take self.now.fill.orders self.now.orders }
        ensures many { length result.now ≡ min self.now.fill.orders 128 }
    {
        front(&self.orders, self.fill.orders)
    }

    // The values of an order.
    pub fn values(&self, row: OrderRow) -> &[ValueRow]
        ensures { result.now ≡ take (row.to - row.from) (drop row.from self.now.values) }
    {
        part(&self.values, row.from, row.to.saturating_sub(row.from))
    }
}
