// Closings on a store of 1 till, 4 versions, 16 blocks per image, 8 records and 32 cells: those that are refused whole, and the fewest and the most images.
ghost use Rattle.std.specs.Prelude.{◌≤◌, length};

use layout::Capacities;
use numbers::Measures;
use refusals::Refusal;

fn capacities() -> Capacities {
    Capacities {
        tills: 1,
        versions: 4,
        blocks: 16,
        records: 8,
        cells: 32,
        measures: Measures::base(),
    }
}

// The first of so many tills, lengths and bytes.
fn refuse_parts(
    p: Parts,
    tills: &[u32],
    lengths: &[u32],
    sent: &[u8],
    pool: &mut [u8],
    table: &mut [u32],
    counts: &mut [u64],
)
    requires { (p.tills ≤ length tills.now) × (p.lengths ≤ length lengths.now) × (p.bytes ≤ length sent.now) }
{
    let t = p.tills;
    let l = p.lengths;
    let s = p.bytes;
    let a = crate::call(
        0,
        &tills[0..t],
        &lengths[0..l],
        &sent[0..s],
        pool,
        table,
        counts,
    );
    crate::judge_answer(a, t, Err(p.expected), counts);
}

// How many tills, lengths and bytes; the till's reserved word; the refusal that is expected.
#[derive(Clone, Copy)]
struct Parts {
    tills: usize,
    lengths: usize,
    bytes: usize,
    reserved: u32,
    expected: Refusal,
}

fn malformed(tills: usize, lengths: usize, bytes: usize) -> Parts
    requires { (tills ≤ 17) × (lengths ≤ 17) × (bytes ≤ 17) }
    ensures { (result.tills ≤ 17) × (result.lengths ≤ 17) × (result.bytes ≤ 17) }
{
    Parts {
        tills,
        lengths,
        bytes,
        reserved: 0,
        expected: Refusal::ImageLength,
    }
}

// With a reserved word that is not zero: what is no sound store goes before what would be a wrong length.
fn unsound(images: usize) -> Parts
    requires { images ≤ 17 }
    ensures { (result.tills ≤ 17) × (result.lengths ≤ 17) × (result.bytes ≤ 17) }
{
    Parts {
        tills: images,
        lengths: images,
        bytes: images,
        reserved: 1,
        expected: Refusal::Unsound,
    }
}

// One image too many; a till without a length, and a length without a till; a byte too few, a byte too many, and one for no image.
fn parts_of(n: u32) -> Parts
    ensures { (result.tills ≤ 17) × (result.lengths ≤ 17) × (result.bytes ≤ 17) }
{
    match n {
        0 => malformed(17, 17, 17),
        1 => malformed(2, 1, 1),
        2 => malformed(1, 2, 2),
        3 => malformed(3, 3, 2),
        4 => malformed(3, 3, 4),
        5 => malformed(0, 0, 1),
        6 => unsound(17),
        _ => unsound(1),
    }
}

// Images of one byte for the first till.
fn refuse(p: Parts, pool: &mut [u8], table: &mut [u32], counts: &mut [u64])
    requires { (p.tills ≤ 17) × (p.lengths ≤ 17) × (p.bytes ≤ 17) }
{
    let tills = [0u32; 17];
    let lengths = [1u32; 17];
    let sent = [65u8; 17];
    refuse_parts(p, &tills, &lengths, &sent, pool, table, counts);
}

fn refuse_one(n: u32, pool: &mut [u8], table: &mut [u32], counts: &mut [u64]) {
    let p = parts_of(n);
    trial_keeper::put_note(table, 11, p.reserved);
    refuse(p, pool, table, counts);
}

fn refuse_each(pool: &mut [u8], table: &mut [u32], counts: &mut [u64]) {
    for n in 0..8 {
        refuse_one(n, pool, table, counts);
    }
}

// In 32 bits these lengths would add up to the one byte.
fn wrapped(pool: &mut [u8], table: &mut [u32], counts: &mut [u64]) {
    let tills = [0u32; 2];
    let lengths = [4294967295u32, 2];
    let a = crate::call(0, &tills, &lengths, b"A", pool, table, counts);
    crate::judge_answer(a, 2, Err(Refusal::ImageLength), counts);
}

fn refused(pool: &mut [u8], table: &mut [u32], counts: &mut [u64]) {
    refuse_each(pool, table, counts);
    trial_keeper::put_note(table, 11, 0);
    wrapped(pool, table, counts);
}

// Two images that are taken, with a till that is not there and an empty image between them.
fn few(
    pool: &mut [u8],
    table: &mut [u32],
    images: &mut [u8],
    notes: &mut [u32],
    counts: &mut [u64],
) {
    let tills = [0u32, 1, 0, 0];
    let lengths = [3u32, 1, 0, 2];
    crate::back_up(
        capacities(),
        0,
        &tills,
        &lengths,
        b"ABCDEF",
        pool,
        table,
        images,
        notes,
        counts,
    );
}

// So many images of a byte: none at all, and sixteen, of which the till has room for two.
fn bytes_each(
    n: usize,
    pool: &mut [u8],
    table: &mut [u32],
    images: &mut [u8],
    notes: &mut [u32],
    counts: &mut [u64],
) {
    let tills = [0u32; 16];
    let lengths = [1u32; 16];
    crate::back_up_first(
        capacities(),
        0,
        n,
        n,
        &tills,
        &lengths,
        b"ABCDEFGHIJKLMNOP",
        pool,
        table,
        images,
        notes,
        counts,
    );
}

fn all_taken(
    pool: &mut [u8],
    table: &mut [u32],
    images: &mut [u8],
    notes: &mut [u32],
    counts: &mut [u64],
) {
    bytes_each(0, pool, table, images, notes, counts);
    few(pool, table, images, notes, counts);
    bytes_each(16, pool, table, images, notes, counts);
}

fn taken(pool: &mut [u8], table: &mut [u32], counts: &mut [u64]) {
    let mut images = [0u8; trial_keeper::IMAGES];
    let mut notes = [0u32; trial_keeper::NOTES];
    all_taken(pool, table, &mut images, &mut notes, counts);
}

fn on_store(pool: &mut [u8], table: &mut [u32], counts: &mut [u64]) {
    trial_calls::lay_out(capacities(), pool, table, counts, 0);
    refused(pool, table, counts);
    taken(pool, table, counts);
}

pub fn closings(counts: &mut [u64]) {
    let mut pool = [0u8; 2048];
    let mut table = [0u32; 240];
    on_store(&mut pool, &mut table, counts);
}
