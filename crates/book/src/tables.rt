// A book as a taker: it is told a line and its orders, and keeps them.
ghost use Rattle.std.specs.Prelude.{◌≡◌, false, []};
ghost use Rattle.book.specs.Holds.{Holds};
ghost use Rattle.book.specs.Kept.{kept_orders};

use crate::fill::Fill;
use crate::order_row::OrderRow;
use crate::put::{put, put_path};
use reader::read_order::ReadOrder;
use reader::source::ValueRow;
use reader::taker::Taker;
use reading::role::Role;
use refusal::Refusal;

// A line and its reading: rows behind the fill are free.
// Kept: the tables are fixed memory, and one record tells the fill of all, so that the console's guard puts it back in one write.
#[derive(Drop)]
pub struct Book {
    pub fill: Fill,
    pub bytes: [u8; 1024],
    pub roles: [Role; 128],
    pub orders: [OrderRow; 128],
    pub values: [ValueRow; 1024],
}

impl Book {
    // A book without a line.
    pub fn new() -> Book
        ensures held { Holds result [] [] }
        ensures kept { kept_orders result ≡ [] }
    {
        Book {
            fill: Fill::default(),
            bytes: [0; 1024],
            roles: [Role::PathWord; 128],
            orders: [OrderRow::default(); 128],
            values: [ValueRow::default(); 1024],
        }
    }
}

impl Taker for Book {
    ghost told = { λ b bytes os. Holds b bytes os };

    ghost refuses = { λ _. false };

    ghost since = { λ _ _ _. Unit {0} };

    fn start(&mut self, bytes: &[u8]) {
        put(&mut self.bytes, 0, bytes);
        self.fill = Fill {
            bytes: bytes.len(),
            ..Fill::default()
        };
    }

    fn take(&mut self, order: ReadOrder) -> Result<(), Refusal> {
        let fill = self.fill;
        put_path(&mut self.roles, fill.words, order.path);
        put(&mut self.roles, fill.words + order.path, order.roles);
        put(&mut self.values, fill.values, order.values);
        let to = fill.values + order.values.len();
        let row = [OrderRow {
            recipe: order.recipe,
            first: order.first,
            words: order.words,
            from: fill.values,
            to,
        }];
        put(&mut self.orders, fill.orders, &row);
        self.fill = Fill {
            bytes: fill.bytes,
            words: fill.words + order.path + order.roles.len(),
            orders: fill.orders + 1,
            values: to,
        };
        Ok(())
    }
}
