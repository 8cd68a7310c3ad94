// The page's case 6 as its fourth request changes it, and case 11, on fresh stores of 1 till, 4 versions, 16 blocks per image, 8 records and 32 cells.
#![tactic(auto)]

use answers::{BackedUp, Restored, Retired, Tally};
use layout::Capacities;
use numbers::Measures;
use std::io;
use trial_draw::images;

fn capacities() -> Capacities {
    Capacities {
        tills: 1,
        versions: 4,
        blocks: 16,
        records: 8,
        cells: 32,
        measures: Measures::base(),
    }
}

// The bytes, the backup's number and version, the restored length, cells, records, wrong bytes.
fn print_image(
    rt: &impl Print,
    bytes: usize,
    given: BackedUp,
    back: Restored,
    kept: Tally,
    wrong: usize,
) -> io::Result<()> {
    println!(rt;
        "image {bytes} {} {} {} {} {} {wrong}",
        given.refusal, given.version, back.length, kept.cells, kept.records
    )
}

// A fresh store gets the image.
fn taken(pool: &mut [u8], table: &mut [u32], image: &[u8]) -> BackedUp {
    let _ = store::lay_out(pool, table, capacities());
    store::backup(pool, table, 0, 0, image).into()
}

// At how many places the output's first bytes and the image differ, if the image was taken.
fn wrong_in(image: &[u8], output: &[u8], bytes: usize) -> usize {
    if bytes == 0 {
        0
    } else if output.len() < bytes {
        bytes
    } else {
        trial_compare::wrong_bytes(image, &output[..bytes])
    }
}

fn image_on(
    rt: &impl Print,
    pool: &mut [u8],
    table: &mut [u32],
    image: &[u8],
    output: &mut [u8],
) -> io::Result<()> {
    let given = taken(pool, table, image);
    let back: Restored = store::restore(pool, table, 0, 0, given.version, output).into();
    let kept: Tally = store::tally(pool, table, 0).into();
    let wrong = wrong_in(image, output, back.length as usize);
    print_image(rt, image.len(), given, back, kept, wrong)
}

fn image_case(rt: &impl Print, image: &[u8]) -> io::Result<()> {
    let mut pool = [0u8; 2048];
    let mut table = [0u32; 240];
    let mut output = [0u8; 1408];
    image_on(rt, &mut pool, &mut table, image, &mut output)
}

fn first_bytes(rt: &impl Print, image: &[u8], bytes: usize) -> io::Result<()> {
    if bytes <= image.len() {
        image_case(rt, &image[0..bytes])?;
    }
    Ok(())
}

// The output's length, the version's, the restore's number.
fn output_on(
    rt: &impl Print,
    pool: &mut [u8],
    table: &mut [u32],
    image: &[u8],
    output: &mut [u8],
) -> io::Result<()> {
    let given = taken(pool, table, image);
    let back: Restored = store::restore(pool, table, 0, 0, given.version, output).into();
    println!(rt; "output {} {} {}", output.len(), image.len(), back.refusal)
}

fn output_case(rt: &impl Print, image: &[u8], output: &mut [u8]) -> io::Result<()> {
    let mut pool = [0u8; 2048];
    let mut table = [0u32; 240];
    output_on(rt, &mut pool, &mut table, image, output)
}

fn short_output(rt: &impl Print, image: &[u8], bytes: usize, output: &mut [u8]) -> io::Result<()> {
    if bytes <= image.len() {
        output_case(rt, &image[0..bytes], output)?;
    }
    Ok(())
}

fn images_tried(rt: &impl Print, image: &[u8]) -> io::Result<()> {
    println!(rt; "image bytes refusal version length cells records wrong")?;
    first_bytes(rt, image, 500)?;
    first_bytes(rt, image, 0)?;
    first_bytes(rt, image, 1024)?;
    first_bytes(rt, image, 1025)
}

fn outputs_tried(rt: &impl Print, image: &[u8]) -> io::Result<()> {
    let mut less = [0u8; 511];
    let mut enough = [0u8; 512];
    println!(rt; "output bytes for refusal")?;
    short_output(rt, image, 512, &mut less)?;
    short_output(rt, image, 512, &mut enough)
}

// The version, the retire's number and length, the cells left.
fn print_retired(rt: &impl Print, version: u32, gone: Retired, cells: u32) -> io::Result<()> {
    println!(rt; "retire {version} {} {} {cells}", gone.refusal, gone.length)
}

fn retire_one(rt: &impl Print, pool: &mut [u8], table: &mut [u32], version: u32) -> io::Result<()> {
    let gone: Retired = store::retire(pool, table, 0, 0, version).into();
    let kept: Tally = store::tally(pool, table, 0).into();
    print_retired(rt, version, gone, kept.cells)
}

// Cases 1 to 4.
fn four_taken(pool: &mut [u8], table: &mut [u32], first: &[u8], second: &[u8]) {
    taken(pool, table, first);
    let _ = store::backup(pool, table, 0, 0, second);
    let _ = store::backup(pool, table, 0, 0, first);
    let _ = store::backup(pool, table, 0, 0, first);
}

// From the middle, gone already, the oldest.
fn three_retired(rt: &impl Print, pool: &mut [u8], table: &mut [u32]) -> io::Result<()> {
    println!(rt; "retire version refusal length cells")?;
    retire_one(rt, pool, table, 3)?;
    retire_one(rt, pool, table, 3)?;
    retire_one(rt, pool, table, 1)
}

fn retires_on(
    rt: &impl Print,
    pool: &mut [u8],
    table: &mut [u32],
    first: &[u8],
    second: &[u8],
) -> io::Result<()> {
    four_taken(pool, table, first, second);
    three_retired(rt, pool, table)
}

fn retires_of(rt: &impl Print, first: &mut [u8], second: &mut [u8]) -> io::Result<()> {
    let mut pool = [0u8; 2048];
    let mut table = [0u32; 240];
    images::spell(first, b"ABCDEFGH");
    images::spell(second, b"ABCDEFGZ");
    retires_on(rt, &mut pool, &mut table, first, second)
}

fn retires_tried(rt: &impl Print) -> io::Result<()> {
    let mut first = [0u8; 512];
    let mut second = [0u8; 512];
    retires_of(rt, &mut first, &mut second)
}

// Erased flash: a stored block among blank and null ones, blank blocks only, and a short last block of 255s, which is stored.
fn erased_tried(rt: &impl Print, image: &mut [u8]) -> io::Result<()> {
    images::spell(image, b"A\xff\xff\0B\xff\xff\xff");
    first_bytes(rt, image, 512)?;
    images::spell(image, b"\xff\xff\xff\xff\xff\xff\xff\xff");
    first_bytes(rt, image, 512)?;
    first_bytes(rt, image, 500)
}

fn all(rt: &impl Print, image: &mut [u8]) -> io::Result<()> {
    images::spell(image, b"ABCDEFGHIJKLMNOPQRSTUV");
    images_tried(rt, image)?;
    outputs_tried(rt, image)
}

pub fn cases(rt: &impl Print) -> io::Result<()> {
    retires_tried(rt)?;
    let mut image = [0u8; 1408];
    all(rt, &mut image)?;
    let mut erased = [0u8; 512];
    erased_tried(rt, &mut erased)
}
