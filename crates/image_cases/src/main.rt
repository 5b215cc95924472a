// Checks each image of a list, one in hexadecimal digits a line, over the same tables: the answer, and how many modules the register then has.
#![tactic(auto)]

use anyhow::anyhow;
use image::load::load;
use image::tables::Tables;
use register::register::Register;
use script::hex::{HexFault, unhex};
use std::alloc::Global;
use std::io::{BufRead, BufReader};

// The image that a line spells.
fn image_of(heap: Global, line: &[u8]) -> anyhow::Result<Vec<u8>> {
    match unhex(heap, line) {
        Err(HexFault::NotHex) => Err(anyhow!("a line is no image")),
        image => Ok(image?),
    }
}

fn run(rt: &HostRuntime) -> anyhow::Result<()> {
    let heap = rt.alloc();
    let mut input = BufReader::new(heap, rt.stdin())?;
    let mut line = Vec::new(heap);
    let mut tables = Tables::new();
    // Kept: a loop by hand, since each line loses its last byte, also one that has no line end, which `split` would leave whole.
    for _ in 0..u64::MAX {
        line.clear();
        if input.read_until(b'\n', &mut line)? == 0 {
            break;
        }
        let _ = line.pop();
        let image = image_of(heap, line.as_slice())?;
        let loaded = load(image.as_slice(), &mut tables);
        let known = loaded.register.modules();
        println!(rt; "{loaded} | {known}")?;
    }
    Ok(())
}

fn main(rt: HostRuntime) -> anyhow::Result<()> {
    run(&rt)
}
