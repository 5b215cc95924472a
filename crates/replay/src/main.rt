// Replays a list of calls: `image JUDGE HEX` checks an image, and `readx HEX` reads a line over it.
#![tactic(auto)]

use anyhow::anyhow;
use book::tables::Book;
use image::load::load;
use image::tables::Tables;
use image_reader::choice::JudgeChoice;
use image_reader::read::read_image;
use reader::invocation_parser::InvocationParser;
use report::ReadingText;
use script::call::{Call, part};
use script::hex::unhex;
use std::io::{BufRead, BufReader};

fn run(rt: &HostRuntime) -> anyhow::Result<()> {
    let heap = rt.alloc();
    let mut tables = Tables::new();
    let mut parser = InvocationParser::new();
    let mut book = Book::new();
    let mut checked = None;
    let mut input = BufReader::new(heap, rt.stdin())?;
    let mut line = Vec::new(heap);
    // Kept: a loop by hand, since each line loses its last byte, also one that has no line end, which `split` would leave whole.
    for _ in 0..u64::MAX {
        line.clear();
        if input.read_until(b'\n', &mut line)? == 0 {
            break;
        }
        let _ = line.pop();
        let Call { name, rest } = part(line.as_slice());
        let rest = rest.unwrap_or(b"");
        match (name, &checked) {
            (b"image", _) => {
                let Call { name, rest } = part(rest);
                let choice = JudgeChoice::named(name).unwrap_or(JudgeChoice::Either);
                let image = unhex(heap, rest.unwrap_or(b""))?;
                println!(rt; "{}", load(image.as_slice(), &mut tables))?;
                checked = Some((choice, image));
            }
            (b"readx", Some((choice, image))) => {
                let line = unhex(heap, rest)?;
                let read = read_image(
                    image.as_slice(),
                    &mut tables,
                    *choice,
                    line.as_slice(),
                    &mut parser,
                    &mut book,
                );
                match read {
                    Ok(()) => println!(rt; "{}", ReadingText { book: &book })?,
                    Err(refusal) => println!(rt; "{refusal}")?,
                }
            }
            _ => return Err(anyhow!("not a call")),
        }
    }
    Ok(())
}

fn main(rt: HostRuntime) -> anyhow::Result<()> {
    run(&rt)
}
