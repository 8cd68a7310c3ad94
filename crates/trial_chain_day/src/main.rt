// A day of two stores on one disk, each of 1 till, 3 versions of 8 blocks, 3 records and 24 cells: calls that name one of them, those that back up with
// their limit. Each line has the call, the store, the limit or the version, the refusal, the number that is answered, and the cells of both stores after it.
#![tactic(auto)]

use answers::{BackedUp, Restored, Retired, Tally};
use layout::Capacities;
use numbers::Measures;
use std::io;
use trial_draw::images;

fn capacities() -> Capacities {
    Capacities {
        tills: 1,
        versions: 3,
        blocks: 8,
        records: 3,
        cells: 24,
        measures: Measures::base(),
    }
}

// Both stores, in buffers of 1,536 bytes and 102 words each.
fn lay_out_first(pools: &mut [u8], tables: &mut [u32]) {
    if pools.len() < 1536 || tables.len() < 102 {
        return;
    }
    let _ = store::lay_out(&mut pools[0..1536], &mut tables[0..102], capacities());
}

// Kept: the new form is no plainer: one function for both needs a bound on the store, to name the same two ranges.
fn lay_out_second(pools: &mut [u8], tables: &mut [u32]) {
    if pools.len() < 3072 || tables.len() < 204 {
        return;
    }
    let _ = store::lay_out(&mut pools[1536..3072], &mut tables[102..204], capacities());
}

fn cells_of(pools: &[u8], tables: &[u32], store: u32) -> u32 {
    let pool_lengths = [1536u32; 2];
    let table_lengths = [102u32; 2];
    let t: Tally = chain_calls::tally(
        pools,
        tables,
        &pool_lengths,
        &table_lengths,
        store,
        0,
    ).into();
    t.cells
}

fn print_call(
    rt: &impl Print,
    call: &str,
    store: u32,
    argument: u32,
    refusal: u32,
    answer: u32,
) -> io::Result<()> {
    print!(rt; "{call} {store} {argument} {refusal} {answer}")
}

fn print_cells(rt: &impl Print, pools: &[u8], tables: &[u32]) -> io::Result<()> {
    println!(rt;
        " {} {}",
        cells_of(pools, tables, 0),
        cells_of(pools, tables, 1)
    )
}

fn back_up(
    rt: &impl Print,
    pools: &mut [u8],
    tables: &mut [u32],
    store: u32,
    limit: u32,
    image: &[u8],
) -> io::Result<()> {
    let pool_lengths = [1536u32; 2];
    let table_lengths = [102u32; 2];
    let r: BackedUp = chain_calls::backup(
        pools,
        tables,
        &pool_lengths,
        &table_lengths,
        store,
        limit,
        0,
        0,
        image,
    )
    .into();
    print_call(rt, "backup", store, limit, r.refusal, r.version)?;
    print_cells(rt, pools, tables)
}

fn retire(
    rt: &impl Print,
    pools: &mut [u8],
    tables: &mut [u32],
    store: u32,
    version: u32,
) -> io::Result<()> {
    let pool_lengths = [1536u32; 2];
    let table_lengths = [102u32; 2];
    let r: Retired = chain_calls::retire(
        pools,
        tables,
        &pool_lengths,
        &table_lengths,
        store,
        0,
        0,
        version,
    )
    .into();
    print_call(rt, "retire", store, version, r.refusal, r.length)?;
    print_cells(rt, pools, tables)
}

fn restore(
    rt: &impl Print,
    pools: &[u8],
    tables: &[u32],
    store: u32,
    version: u32,
    output: &mut [u8],
) -> io::Result<()> {
    let pool_lengths = [1536u32; 2];
    let table_lengths = [102u32; 2];
    let r: Restored = chain_calls::restore(
        pools,
        tables,
        &pool_lengths,
        &table_lengths,
        store,
        0,
        0,
        version,
        output,
    )
    .into();
    print_call(rt, "restore", store, version, r.refusal, r.length)
}

fn restored(
    rt: &impl Print,
    pools: &[u8],
    tables: &[u32],
    store: u32,
    version: u32,
    image: &[u8],
) -> io::Result<()> {
    let mut output = [0u8; 512];
    restore(rt, pools, tables, store, version, &mut output)?;
    println!(rt; " {}", trial_compare::wrong_bytes(image, &output))
}

// A limit just at the sum, and one below it.
fn at_the_sum(
    rt: &impl Print,
    pools: &mut [u8],
    tables: &mut [u32],
    first: &[u8],
) -> io::Result<()> {
    back_up(rt, pools, tables, 0, 8, first)?;
    back_up(rt, pools, tables, 1, 15, first)?;
    back_up(rt, pools, tables, 1, 16, first)
}

// Cells that removal frees are free: 24 are occupied in between, and 17 in the end.
fn freed(rt: &impl Print, pools: &mut [u8], tables: &mut [u32], second: &[u8]) -> io::Result<()> {
    back_up(rt, pools, tables, 0, 16, second)?;
    back_up(rt, pools, tables, 0, 17, second)
}

// A limit below the present sum refuses what adds nothing, and no retirement, which makes room; a third store is not there.
fn below_the_sum(
    rt: &impl Print,
    pools: &mut [u8],
    tables: &mut [u32],
    first: &[u8],
) -> io::Result<()> {
    back_up(rt, pools, tables, 1, 16, first)?;
    retire(rt, pools, tables, 0, 1)?;
    back_up(rt, pools, tables, 1, 16, first)?;
    back_up(rt, pools, tables, 2, 99, first)
}

fn limits(
    rt: &impl Print,
    pools: &mut [u8],
    tables: &mut [u32],
    first: &[u8],
    second: &[u8],
) -> io::Result<()> {
    at_the_sum(rt, pools, tables, first)?;
    freed(rt, pools, tables, second)?;
    below_the_sum(rt, pools, tables, first)
}

fn all_restored(
    rt: &impl Print,
    pools: &[u8],
    tables: &[u32],
    first: &[u8],
    second: &[u8],
) -> io::Result<()> {
    restored(rt, pools, tables, 0, 2, second)?;
    restored(rt, pools, tables, 1, 1, first)?;
    restored(rt, pools, tables, 1, 2, first)
}

fn disk(
    rt: &impl Print,
    pools: &mut [u8],
    tables: &mut [u32],
    first: &[u8],
    second: &[u8],
) -> io::Result<()> {
    println!(rt; "call store limit or version refusal answer cells cells")?;
    lay_out_first(pools, tables);
    lay_out_second(pools, tables);
    limits(rt, pools, tables, first, second)?;
    println!(rt; "call store version refusal length wrong")?;
    all_restored(rt, pools, tables, first, second)
}

fn spelled(rt: &impl Print, first: &mut [u8], second: &mut [u8]) -> io::Result<()> {
    images::spell(first, b"ABCDEFGH");
    images::spell(second, b"ABCDEFGZ");
    let mut pools = [0u8; 3072];
    let mut tables = [0u32; 204];
    disk(rt, &mut pools, &mut tables, first, second)
}

fn main(rt: HostRuntime) -> io::Result<()> {
    let mut first = [0u8; 512];
    let mut second = [0u8; 512];
    spelled(&rt, &mut first, &mut second)
}
