// A line, read over an image's bytes.
ghost use Rattle.book.specs.Kept.{kept_orders};
ghost use Rattle.image_reader.specs.AsJust.{AsJust};

use crate::choice::{JudgeChoice, chosen};
use book::read::read_line;
use book::tables::Book;
use image::load::load;
use image::tables::Tables;
use reader::invocation_parser::InvocationParser;
use refusal::Refusal;

// Checks an image and reads a line over it. The answer is what just's own parser gives over the image's tree; or the refusal of the image, or of the line's limits.
pub fn read_image<'a>(
    image: &'a [u8],
    tables: &'a mut Tables,
    choice: JudgeChoice,
    line: &[u8],
    parser: &mut InvocationParser,
    book: &mut Book,
) -> Result<(), Refusal>
    ensures { AsJust image.now choice line.now (kept_orders book.new) result }
{
    let loaded = load(image, tables);
    loaded.answer?;
    let judge = chosen(loaded, choice);
    read_line(&loaded.register, &judge, line, parser, book)
}
