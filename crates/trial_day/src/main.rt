// A day at the box: the page's cases 1 to 4, then version 1 is restored and retired. A line for each call, with what the store answered.
#![tactic(auto)]

use answers::{BackedUp, Restored, Retired, Tally};
use layout::Capacities;
use numbers::Measures;
use std::io;
use trial_draw::images;

// The call, its till, the version given or named, that version's length, hops, cells.
fn print_call(
    rt: &impl Print,
    call: &str,
    version: u32,
    length: u32,
    hops: u32,
    cells: u32,
) -> io::Result<()> {
    println!(rt; "{call} 0 {version} {length} {hops} {cells}")
}

// A length counts if the bytes are the image's.
fn length_if_same(length: u32, output: &[u8], image: &[u8]) -> u32 {
    if output == image { length } else { 0 }
}

// A backup answers no length: the version is restored at once.
fn back_up(rt: &impl Print, pool: &mut [u8], table: &mut [u32], image: &[u8]) -> io::Result<()> {
    let given: BackedUp = store::backup(pool, table, 0, 0, image).into();
    let mut output = [0u8; 512];
    let back: Restored = store::restore(pool, table, 0, 0, given.version, &mut output).into();
    let length = length_if_same(back.length, &output, image);
    let kept: Tally = store::tally(pool, table, 0).into();
    print_call(rt, "backup", given.version, length, 0, kept.cells)
}

fn restore_first(rt: &impl Print, pool: &[u8], table: &[u32], image: &[u8]) -> io::Result<()> {
    let mut output = [0u8; 512];
    let back: Restored = store::restore(pool, table, 0, 0, 1, &mut output).into();
    let length = length_if_same(back.length, &output, image);
    let kept: Tally = store::tally(pool, table, 0).into();
    print_call(rt, "restore", 1, length, back.hops, kept.cells)
}

fn retire_first(rt: &impl Print, pool: &mut [u8], table: &mut [u32]) -> io::Result<()> {
    let gone: Retired = store::retire(pool, table, 0, 0, 1).into();
    let kept: Tally = store::tally(pool, table, 0).into();
    print_call(rt, "retire", 1, gone.length, 0, kept.cells)
}

fn day(
    rt: &impl Print,
    pool: &mut [u8],
    table: &mut [u32],
    first: &[u8],
    second: &[u8],
) -> io::Result<()> {
    println!(rt; "call till version length hops cells")?;
    back_up(rt, pool, table, first)?;
    back_up(rt, pool, table, second)?;
    back_up(rt, pool, table, first)?;
    back_up(rt, pool, table, first)?;
    restore_first(rt, pool, table, first)?;
    retire_first(rt, pool, table)
}

fn open(
    rt: &impl Print,
    pool: &mut [u8],
    table: &mut [u32],
    first: &[u8],
    second: &[u8],
) -> io::Result<()> {
    let _ = store::lay_out(
        pool,
        table,
        Capacities {
            tills: 1,
            versions: 4,
            blocks: 16,
            records: 8,
            cells: 32,
            measures: Measures::base(),
        },
    );
    day(rt, pool, table, first, second)
}

fn spelled(rt: &impl Print, first: &mut [u8], second: &mut [u8]) -> io::Result<()> {
    images::spell(first, b"ABCDEFGH");
    images::spell(second, b"ABCDEFGZ");
    let mut pool = [0u8; 2048];
    let mut table = [0u32; 240];
    open(rt, &mut pool, &mut table, first, second)
}

fn main(rt: HostRuntime) -> io::Result<()> {
    let mut first = [0u8; 512];
    let mut second = [0u8; 512];
    spelled(&rt, &mut first, &mut second)
}
