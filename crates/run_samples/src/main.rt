// Runs the census program's code on the sample images of data/ and on noise of the sizes where document 01 changes its answer.
// Each sample is built here again by its recipe and compared with its file, byte for byte, before its census is printed; the
// file stdout beside src/ has what must come out. The noise is written to a file and read back, as a user's image would be.
// Every sample has 20,480 bytes: all 0xff, but for the pages that its recipe names; a page of a flight has five records where nothing else is
// said.
// What standard output does not take is lost, and no status tells it.
#![tactic(auto)]

use blackbox::{FlightRecord, RECORDS_PER_PAGE};
use std::fs::File;
use std::io::Result;
use std::os::fd::AsRawFd;

const IMAGE_LEN: usize = 20480;

// Page `index` as 256 bytes of one value.
fn put_value(image: &mut [u8], index: u32, value: u8) {
    words::put_bytes(image, layout::page_address(index), &[value; 256]);
}

// Page `sequence` of a flight that begins at page `first`, with `count` all-zero records.
fn put_page(image: &mut [u8], first: u32, flight: u32, sequence: u32, count: usize) {
    let records = [FlightRecord::default(); RECORDS_PER_PAGE];
    if let Ok(page) = blackbox::encode_page(flight, sequence, records, count) {
        words::put_bytes(
            image,
            layout::page_address(first.wrapping_add(sequence)),
            &page,
        );
    }
}

// `count` pages of a flight from `first` on.
fn put_flight(image: &mut [u8], first: u32, count: u32, flight: u32) {
    for sequence in 0..count {
        put_page(image, first, flight, sequence, RECORDS_PER_PAGE);
    }
}

// A sample's name, whether its file is what the recipe builds, and the census of the file.
fn sample(rt: &HostRuntime, name: &str, image: &[u8]) -> Result<()> {
    let _ = print!(rt; "sample {name}");
    let mut stored = [0; IMAGE_LEN + 1];
    let input = File::open(rt, name)?;
    let n = io::read_full(input.as_raw_fd(), &mut stored);
    let _ = if &stored[..n] == image {
        println!(rt; " as built")
    } else {
        println!(rt; " DIFFERS from what the recipe builds")
    };
    census_file(rt, name)
}

// The census of a file, by the code of the program `census`.
fn census_file(rt: &HostRuntime, name: &str) -> Result<()> {
    let input = File::open(rt, name)?;
    census_print::print_census(input.as_raw_fd());
    Ok(())
}

// Document 01's example: pages 0 and 1 of flight 1, page 2 all zero, page 3 of flight 2.
fn example(rt: &HostRuntime) -> Result<()> {
    let mut image = [0xff; IMAGE_LEN];
    put_flight(&mut image, 0, 2, 1);
    put_value(&mut image, 2, 0);
    put_flight(&mut image, 3, 1, 2);
    sample(rt, "example", &image)
}

// No page used.
fn fresh(rt: &HostRuntime) -> Result<()> {
    let image = [0xff; IMAGE_LEN];
    sample(rt, "fresh", &image)
}

// All 16 pages used: eight of flight 1, eight of flight 2.
fn full(rt: &HostRuntime) -> Result<()> {
    let mut image = [0xff; IMAGE_LEN];
    put_flight(&mut image, 0, 8, 1);
    put_flight(&mut image, 8, 8, 2);
    sample(rt, "full", &image)
}

// Two brown-outs: pages 0 and 1 of flight 1, then two pages all zero.
fn foreign(rt: &HostRuntime) -> Result<()> {
    let mut image = [0xff; IMAGE_LEN];
    put_flight(&mut image, 0, 2, 1);
    put_value(&mut image, 2, 0);
    put_value(&mut image, 3, 0);
    sample(rt, "foreign", &image)
}

// Flight 1 after flight 2.
fn falling(rt: &HostRuntime) -> Result<()> {
    let mut image = [0xff; IMAGE_LEN];
    put_flight(&mut image, 0, 2, 2);
    put_flight(&mut image, 2, 1, 1);
    sample(rt, "falling", &image)
}

// The full log with page 3 blank: the halving does not see it, so it is used and torn.
fn hole(rt: &HostRuntime) -> Result<()> {
    let mut image = [0xff; IMAGE_LEN];
    put_flight(&mut image, 0, 8, 1);
    put_flight(&mut image, 8, 8, 2);
    put_value(&mut image, 3, 0xff);
    sample(rt, "hole", &image)
}

// Flight 1 ends with a page of two records, and the page behind it is torn: all zero. Then page 3 of flight 2.
fn short(rt: &HostRuntime) -> Result<()> {
    let mut image = [0xff; IMAGE_LEN];
    put_flight(&mut image, 0, 1, 1);
    put_page(&mut image, 0, 1, 1, 2);
    put_value(&mut image, 2, 0);
    put_flight(&mut image, 3, 1, 2);
    sample(rt, "short", &image)
}

// Pages that decode and have no record: the second of flight 1, and the only one of flight 2.
fn empty(rt: &HostRuntime) -> Result<()> {
    let mut image = [0xff; IMAGE_LEN];
    put_flight(&mut image, 0, 1, 1);
    put_page(&mut image, 0, 1, 1, 0);
    put_page(&mut image, 2, 2, 0, 0);
    sample(rt, "empty", &image)
}

// The next number of the noise: 75 times the last and 74 more, modulo 65,537.
fn next_noise(s: u32) -> u32 {
    (s % 65537 * 75 + 74) % 65537
}

fn fill_noise(block: &mut [u8]) {
    let mut s = 1;
    for byte in block {
        s = next_noise(s);
        *byte = (s % 256) as u8;
    }
}

// So many blocks of 4,096 bytes of noise and some bytes more, as a file.
fn write_noise(rt: &HostRuntime, blocks: u32, rest: u32) -> Result<()> {
    let mut block = [0; 4096];
    fill_noise(&mut block);
    let file = File::create(rt, "noise")?;
    for _ in 0..blocks {
        io::write_all(file.as_raw_fd(), &block);
    }
    if let Some(part) = block.get(..rest as usize) {
        io::write_all(file.as_raw_fd(), part);
    }
    Ok(())
}

// The census of a file of noise.
fn noise(rt: &HostRuntime, blocks: u32, rest: u32) -> Result<()> {
    write_noise(rt, blocks, rest)?;
    let bytes = u64::from(blocks) * 4096 + u64::from(rest);
    let _ = println!(rt; "noise of {bytes} bytes");
    census_file(rt, "noise")
}

fn main(rt: HostRuntime) -> Result<()> {
    example(&rt)?;
    fresh(&rt)?;
    full(&rt)?;
    foreign(&rt)?;
    falling(&rt)?;
    hole(&rt)?;
    short(&rt)?;
    empty(&rt)?;
    noise(&rt, 0, 0)?;
    noise(&rt, 0, 1)?;
    noise(&rt, 4, 0)?;
    noise(&rt, 4, 4095)?;
    noise(&rt, 15, 0)?;
    noise(&rt, 15, 1)?;
    noise(&rt, 256, 0)
}
