// What the program does: its options, the image, and the calls of a script, one answer a line.
#![tactic(auto)]

use calls::Desk;
use examples::example;
use image::load::{Loaded, load};
use image::tables::Tables;
use image_reader::choice::chosen;
use judge::Judge;
use options::Options;
use register::bare::Bare;
use register::mount::Mount;
use register::register::Register;
use script::call::is_skipped;
use std::fs;
use std::io::{BufRead, BufReader};

mod calls;
mod fault;
mod options;
mod tree_calls;

// Reads a script line without its end; false where there is none.
fn next_line(input: &mut impl BufRead, line: &mut Vec<u8>) -> std::io::Result<bool> {
    line.clear();
    if input.read_until(b'\n', line)? == 0 {
        return Ok(false);
    }
    if line.ends_with(b"\n") {
        let _ = line.pop();
    }
    Ok(true)
}

// Answers the calls of the script, and tells at its end what has been done.
fn run<R: Register, J: Judge>(rt: &HostRuntime, register: &R, judge: &J) -> anyhow::Result<()> {
    let heap = rt.alloc();
    let mut desk = Desk::new(heap, register, judge);
    let mut input = BufReader::new(heap, rt.stdin())?;
    let mut line = Vec::new(heap);
    // Kept: one buffer for all lines, since `split` makes a new one for each, and skips a comment in twice the time.
    for _ in 0..u64::MAX {
        if !next_line(&mut input, &mut line)? {
            break;
        }
        if !is_skipped(line.as_slice()) {
            rt.println(desk.answer(line.as_slice())?)?;
        }
    }
    rt.println(desk.tally.summary(heap)?)?;
    Ok(())
}

// The register with the module that is mounted, if one is, as its root.
fn mounted<R: Register>(below: R, module: Option<u16>) -> Mount<R> {
    let module = module.unwrap_or(below.root());
    Mount { below, module }
}

// Says how the image was checked, and answers over its tree or over the bare register.
fn serve(rt: &HostRuntime, options: &Options, loaded: Loaded<'_>) -> anyhow::Result<()> {
    println!(rt; "{loaded}")?;
    let judge = chosen(loaded, options.judge);
    if options.bare {
        run(rt, &mounted(Bare, options.mount), &judge)
    } else {
        run(rt, &mounted(loaded.register, options.mount), &judge)
    }
}

// Reads the options, checks the image and answers the script on standard input.
pub fn run_all(rt: &HostRuntime) -> anyhow::Result<()> {
    let options = Options::read(rt)?;
    let mut tables = Tables::new();
    match &options.image {
        Some(path) => {
            let bytes = fs::read(rt, path.as_str())?;
            serve(rt, &options, load(bytes.as_slice(), &mut tables))
        }
        None => serve(rt, &options, load(example(), &mut tables)),
    }
}
