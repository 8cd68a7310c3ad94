// The page's cases 6 and 11, and long drawn histories on small stores beside a keeper of whole images. Prints what was counted.
#![tactic(auto)]

mod checks;
mod history;
mod turns;

use layout::Capacities;
use numbers::Measures;
use std::io;
use trial_report::tell;

fn capacities(tills: u32, versions: u32, blocks: u32, records: u32, cells: u32) -> Capacities {
    Capacities {
        tills,
        versions,
        blocks,
        records,
        cells,
        measures: Measures::base(),
    }
}

fn measured(five: Capacities, bytes: u32, blocks: u32, percent: u32) -> Capacities {
    Capacities {
        measures: Measures::chosen(bytes, blocks, percent),
        ..five
    }
}

// The page's store, some that run out of records or of cells, the least, a roomy one; and some of other measures.
fn store_of(n: u32) -> Capacities {
    match n % 10 {
        0 => capacities(1, 4, 16, 8, 32),
        1 => capacities(2, 3, 10, 6, 24),
        2 => capacities(3, 2, 5, 3, 12),
        3 => capacities(1, 1, 1, 1, 1),
        4 => capacities(2, 5, 20, 16, 64),
        5 => capacities(3, 5, 9, 20, 20),
        6 => capacities(1, 5, 17, 4, 60),
        7 => measured(capacities(2, 4, 5, 12, 20), 128, 4, 0),
        8 => measured(capacities(1, 4, 2, 4, 8), 512, 16, 100),
        _ => measured(capacities(2, 3, 20, 10, 48), 64, 16, 50),
    }
}

fn histories(count: u32, pool: &mut [u8], table: &mut [u32], counts: &mut [u64]) {
    for n in 0..count {
        history::history(store_of(n), u64::from(n) + 1, 1000, pool, table, counts);
    }
}

fn trial(
    rt: &impl Print,
    pool: &mut [u8],
    table: &mut [u32],
    counts: &mut [u64],
) -> io::Result<()> {
    trial_cases::cases(rt)?;
    trial_refusals::lengths(counts);
    trial_refusals::layouts(pool, table, counts);
    trial_refusals::last_number(counts);
    trial_refusals::sending::messages(counts);
    trial_staff::keys(counts);
    trial_closing::whole::closings(counts);
    histories(20, pool, table, counts);
    tell::report(rt, counts)
}

fn main(rt: HostRuntime) -> io::Result<()> {
    let mut pool = [0u8; 4096];
    let mut table = [0u32; 600];
    let mut counts = [0u64; 63];
    trial(&rt, &mut pool, &mut table, &mut counts)
}
