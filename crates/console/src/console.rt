// The console's state.
ghost use Rattle.std.specs.Prelude.{◌≡◌, ◌+◌, ◌^◌, ◌<◌, ◌≤◌, true};

use book::tables::Book;
use reader::invocation_parser::InvocationParser;

mod admit;
mod counts;
mod making;
mod readback;
mod restore;
pub mod slip;
mod state;

// One line at a time. The line's order in row i is the order base + i since the making; those below
// `at` are done, the one at `at` is out or waits, and those behind it wait. `shown` tells how often each
// row's order was issued, counted to 255. Rows from the book's fill on are free, and so is the parser between two admits.
// Kept: `out` is a plain yes or no, since `at` counts the same whether its order is out or not.
// Kept: `shown` lies beside the book's rows, since a book is a reading and knows of no issues.
pub struct Console {
    number: u32,
    first: u32,
    base: u32,
    total: u32,
    at: usize,
    out: bool,
    book: Book,
    shown: [u8; 128],
    parser: InvocationParser,
    ghost some: { 1 ≤ first },
    ghost reached: { at ≤ book.fill.orders },
    ghost few: { book.fill.orders ≤ 128 },
    ghost counted: { base + book.fill.orders ≤ total },
    ghost serials: { first + total ≤ 2 ^ 32 },
    ghost shows: { out ≡ true → at < book.fill.orders },
}
