// The reader for other languages, and two functions for measuring.
#![tactic(auto)]

use book::tables::Book;
use console::console::Console;
use image::load::load;
use image::tables::Tables;
use image_reader::choice::{JudgeChoice, chosen};
use image_reader::read::read_image;
use reader::invocation_parser::InvocationParser;
use report::ReadingText;
use std::fmt::InlineText;
use text::line::Line;

// The judge of a number: 0 texts, 1 gauge, any other either.
// Kept: the C interface gives the judge as a number.
fn choice_of(judge: u8) -> JudgeChoice {
    match judge {
        0 => JudgeChoice::Texts,
        1 => JudgeChoice::Gauge,
        _ => JudgeChoice::Either,
    }
}

// Copies as much as there is room for, and tells how much that is.
fn copy(text: &[u8], out: &mut [u8]) -> usize {
    let count = text.len().min(out.len());
    out[..count].copy_from_slice(&text[..count]);
    count
}

// Checks the image, reads the line over it, writes the answer as the program's `readx` gives it, and tells its length. No answer is longer than the text that it is written to first.
#[unsafe(no_mangle)]
pub extern "C" fn dotmuslin_read(image: &[u8], line: &[u8], judge: u8, out: &mut [u8]) -> usize {
    let mut tables = Tables::new();
    let mut parser = InvocationParser::new();
    let mut book = Book::new();
    let read = read_image(
        image,
        &mut tables,
        choice_of(judge),
        line,
        &mut parser,
        &mut book,
    );
    let text: InlineText<16384> = match read {
        Ok(()) => InlineText::of(ReadingText { book: &book }),
        Err(refusal) => InlineText::of(refusal),
    };
    copy(text.as_str().as_bytes(), out)
}

// Sums the orders of so many rounds.
fn sum<F: FnMut() -> usize>(rounds: u64, mut round: F) -> u64
    requires { F.IsAlwaysCallable round }
{
    let mut orders: u64 = 0;
    for _ in 0..rounds {
        orders = orders.saturating_add(round() as u64);
    }
    orders
}

// Checks the image and cuts the line once, and reads it so many times: for measuring.
#[unsafe(no_mangle)]
pub extern "C" fn dotmuslin_repeat(image: &[u8], line: &[u8], judge: u8, rounds: u64) -> u64 {
    let Ok(line) = Line::cut(line) else {
        return 0;
    };
    let mut tables = Tables::new();
    let loaded = load(image, &mut tables);
    let judge = chosen(loaded, choice_of(judge));
    let mut parser = InvocationParser::new();
    let mut book = Book::new();
    sum(rounds, || {
        parser
            .parse_invocations(&loaded.register, &judge, &line, &mut book)
            .map_or(0, |()| book.orders().len())
    })
}

// Checks the image once, and has a console admit the line and withdraw it again so many times: for measuring.
#[unsafe(no_mangle)]
pub extern "C" fn dotmuslin_admit(image: &[u8], line: &[u8], judge: u8, rounds: u64) -> u64 {
    let mut tables = Tables::new();
    let loaded = load(image, &mut tables);
    let judge = chosen(loaded, choice_of(judge));
    let mut console = Console::new(1, 1);
    let orders = sum(rounds, || {
        let admitted = console.admit(&loaded.register, &judge, line);
        let _ = console.withdraw();
        admitted.map_or(0, |admitted| admitted.orders)
    });
    let _ = console.end();
    orders
}
