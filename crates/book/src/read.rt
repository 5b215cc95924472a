// Reading a line into a book.
ghost use Rattle.book.specs.Kept.{Reads, Rows, kept_orders, kept_roles};

use crate::tables::Book;
use judge::Judge;
use reader::invocation_parser::InvocationParser;
use refusal::Refusal;
use register::register::Register;
use text::line::Line;

// Kept: a register and a judge are given one by one, here and to the parser, since each goes with any other.
// Reads a line by a register and a judge: the book keeps its only lawful reading, or the answer is the first limit that it oversteps, or its first fault. What a book keeps behind a refusal is free.
pub fn read_line<R: Register, J: Judge>(
    register: &R,
    judge: &J,
    line: &[u8],
    parser: &mut InvocationParser,
    book: &mut Book,
) -> Result<(), Refusal>
    ensures reads { Reads (R.Register.names register.now) (R.Register.signatures register.now) (J.Judge.accepts judge.now) line.now (kept_orders book.new) (kept_roles book.new) result }
    ensures rows { Rows line.now book.new result }
{
    let line = Line::cut(line)?;
    parser.parse_invocations(register, judge, &line, book)
}
