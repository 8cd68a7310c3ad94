// Refusals that no drawn call meets: capacities out of range, buffers of another length, a till whose numbers have run out, messages that do not hold together.
#![tactic(auto)]

pub mod sending;

ghost use Rattle.std.specs.Prelude.{◌≤◌};

use answers::{BackedUp, Listing, Retired};
use layout::Capacities;
use numbers::Measures;
use refusals::{Refusal, answered};
use trial_report::counts;

// The n-th of the first five capacities is `value`, the others 1.
fn with_one(n: u32, value: u32) -> Capacities {
    let mut c = Capacities {
        tills: 1,
        versions: 1,
        blocks: 1,
        records: 1,
        cells: 1,
        measures: Measures::base(),
    };
    match n {
        0 => c.tills = value,
        1 => c.versions = value,
        2 => c.blocks = value,
        3 => c.records = value,
        _ => c.cells = value,
    }
    c
}

fn most_of(n: u32) -> u32
    ensures { result ≤ 32768 }
{
    match n {
        0 => 16,
        1 => 64,
        2 => 1024,
        3 => 4096,
        _ => 32768,
    }
}

// Capacities, and the answer that they get.
#[derive(Clone, Copy)]
struct Sizes {
    c: Capacities,
    expected: Result<(), Refusal>,
}

// The least and the most of each of the five, and one past each.
fn range_of(n: u32) -> Sizes {
    let most = most_of(n / 4);
    let (value, expected) = match n % 4 {
        0 => (1, Ok(())),
        1 => (most, Ok(())),
        2 => (0, Err(Refusal::Capacity)),
        _ => (most + 1, Err(Refusal::Capacity)),
    };
    Sizes {
        c: with_one(n / 4, value),
        expected,
    }
}

// An image of so many blocks of these measures, the other four capacities 1.
fn measured(bytes: u32, blocks: u32, percent: u32, image: u32) -> Capacities {
    Capacities {
        measures: Measures::chosen(bytes, blocks, percent),
        ..with_one(2, image)
    }
}

// Measures in range; then no such block, or too many; then no such segment, or percentage.
fn measures_of(n: u32) -> Sizes {
    let c = match n {
        0 => measured(64, 4, 0, 1024),
        1 => measured(128, 8, 100, 512),
        2 => measured(256, 16, 50, 256),
        3 => measured(512, 16, 20, 128),
        4 => measured(0, 8, 20, 1),
        5 => measured(96, 8, 20, 1),
        6 => measured(1024, 8, 20, 1),
        7 => measured(512, 8, 20, 129),
        8 => measured(64, 0, 20, 1),
        9 => measured(64, 5, 20, 1),
        10 => measured(64, 32, 20, 1),
        _ => measured(64, 8, 101, 1),
    };
    let expected = if n < 4 {
        Ok(())
    } else {
        Err(Refusal::Capacity)
    };
    Sizes { c, expected }
}

fn sizes_of(n: u32) -> Sizes {
    if n < 20 {
        range_of(n)
    } else {
        measures_of(n - 20)
    }
}

fn length_of(n: u32, counts: &mut [u64]) {
    let s = sizes_of(n);
    let c = s.c;
    trial_calls::table_length(c, counts, answered(&s.expected));
}

pub fn lengths(counts: &mut [u64]) {
    for n in 0..32 {
        length_of(n, counts);
    }
}

// Capacities, the bytes and words lent, and the answer that they get.
#[derive(Clone, Copy)]
struct Lent {
    c: Capacities,
    bytes: usize,
    words: usize,
    expected: Result<(), Refusal>,
}

// One past the least and the most of each of the five: ten numbers in a row. All of the buffers is lent.
fn out_of_range(n: u32) -> Lent {
    let s = range_of(n / 2 % 5 * 4 + 2 + n % 2);
    let c = s.c;
    Lent {
        c,
        bytes: trial_compare::POOL,
        words: trial_compare::TABLE,
        expected: s.expected,
    }
}

// A store of ones has 64 bytes and 35 words.
fn of_other_length(bytes: usize, words: usize) -> Lent {
    let c = with_one(0, 1);
    Lent {
        c,
        bytes,
        words,
        expected: Err(Refusal::Lengths),
    }
}

fn lent_of(n: u32) -> Lent {
    match n {
        0 => of_other_length(63, 35),
        1 => of_other_length(65, 35),
        2 => of_other_length(64, 34),
        3 => of_other_length(64, 36),
        _ => out_of_range(n),
    }
}

// On the first bytes and words of the buffers; too few of them are a wrong answer.
fn lay_out_one(n: u32, pool: &mut [u8], table: &mut [u32], counts: &mut [u64]) {
    let l = lent_of(n);
    let c = l.c;
    let bytes = trial_choice::at_most(l.bytes, pool.len());
    let words = trial_choice::at_most(l.words, table.len());
    counts::expect(counts, bytes == l.bytes);
    counts::expect(counts, words == l.words);
    trial_calls::lay_out(
        c,
        &mut pool[0..bytes],
        &mut table[0..words],
        counts,
        answered(&l.expected),
    );
}

pub fn layouts(pool: &mut [u8], table: &mut [u32], counts: &mut [u64]) {
    for n in 0..14 {
        lay_out_one(n, pool, table, counts);
    }
}

// Version n comes to a store of ones.
fn come(n: u32, image: &[u8], pool: &mut [u8], table: &mut [u32], counts: &mut [u64]) {
    let a: BackedUp = store::backup(pool, table, 0, 0, image).into();
    counts::answered(counts, counts::BACKUPS, a.refusal, 0);
    counts::expect(counts, a.version == n);
}

fn go(n: u32, pool: &mut [u8], table: &mut [u32], counts: &mut [u64]) {
    let a: Retired = store::retire(pool, table, 0, 0, n).into();
    counts::answered(counts, counts::RETIRES, a.refusal, 0);
    counts::expect(counts, a.length == 50);
}

fn every_number(image: &[u8], pool: &mut [u8], table: &mut [u32], counts: &mut [u64]) {
    for n in 1..=65535 {
        come(n, image, pool, table, counts);
        go(n, pool, table, counts);
    }
}

fn no_more(image: &[u8], pool: &mut [u8], table: &mut [u32], counts: &mut [u64]) {
    let mut bytes = [0u8; 64];
    let mut entries = [0u32; 35];
    trial_compare::copy(pool, table, &mut bytes, &mut entries);
    let a: BackedUp = store::backup(pool, table, 0, 0, image).into();
    trial_judge::backup_refused(a, Refusal::NumbersSpent.into(), counts);
    trial_judge::unaltered(&bytes, &entries, pool, table, counts);
}

fn none_held(pool: &[u8], table: &[u32], counts: &mut [u64]) {
    let a: Listing = store::listing(pool, table, 0, 0).into();
    counts::answered(counts, counts::LISTINGS, a.refusal, 0);
    counts::expect(counts, a.oldest == 0);
    counts::expect(counts, a.newest == 0);
    counts::expect(counts, a.last == 65535);
}

// All 65,535 numbers are given, and no more.
fn on_store(image: &[u8], pool: &mut [u8], table: &mut [u32], counts: &mut [u64]) {
    trial_calls::lay_out(with_one(0, 1), pool, table, counts, 0);
    every_number(image, pool, table, counts);
    no_more(image, pool, table, counts);
    none_held(pool, table, counts);
}

pub fn last_number(counts: &mut [u64]) {
    let image = [65u8; 50];
    let mut pool = [0u8; 64];
    let mut table = [0u32; 35];
    on_store(&image, &mut pool, &mut table, counts);
}
