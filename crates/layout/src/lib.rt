// Table length and lay out; a table's capacities and lengths.
#![tactic(auto)]

ghost use Rattle.std.specs.Prelude.{true, ◌&&◌, ◌≡◌, [], ◌∷◌, ℕ, ◌+◌, ◌*◌, ◌/◌, ◌≤◌, ◌<◌, eqb, length, get_or, set};
ghost use Rattle.lists.specs.Lists.{is_in};
ghost use Rattle.model.specs.Measures.{is_within, are_measures, in_range, till_words, records_at, pool_bytes, table_words};
ghost use Rattle.model.specs.Table.{measure_word, shape_of, state_to_words, state_to_bytes};
ghost use Rattle.model.specs.Calls.{table_length_of, layout_of, empty_state};
ghost use Rattle.laws.specs.Ranges.{Ranges};
ghost use Rattle.laws.specs.Stores.{HeaderRanges};
ghost use Rattle.numbers.specs.Measures.{measures_of};
ghost use Rattle.refusals.specs.Refusals.{refusal_of};
ghost use Rattle.layout.specs.Layout.{shape, length_result, layout_answer};

use numbers::Measures;
use refusals::Refusal;

// The table's first words, with the capacities and the measures.
pub const HEADER_WORDS: usize = 8;

// The eight of a store.
#[derive(Clone, Copy, Debug, PartialEq, Eq)]
pub struct Capacities {
    pub tills: u32,
    pub versions: u32,
    pub blocks: u32,
    pub records: u32,
    pub cells: u32,
    pub measures: Measures,
}

// The measures that a table's header gives.
pub fn measures_in(table: &[u32]) -> Measures
    requires { 8 ≤ length table.now }
    ensures { measures_of result ≡ (shape_of table.now).measures }
{
    Measures::of_words(table[5], table[6], table[7])
}

// All eight that it gives.
pub fn capacities_in(table: &[u32]) -> Capacities
    requires { 8 ≤ length table.now }
    ensures { shape result ≡ shape_of table.now }
{
    Capacities {
        tills: table[0],
        versions: table[1],
        blocks: table[2],
        records: table[3],
        cells: table[4],
        measures: measures_in(table),
    }
}

// How many words a till has.
pub fn till_words(table: &[u32]) -> usize
    requires { HeaderRanges table.now }
    ensures { result ≡ till_words (get_or table.now 1 0) (get_or table.now 2 0) }
{
    4 + table[1] as usize * (3 + table[2] as usize)
}

// Where the records' words begin.
pub fn records_at(table: &[u32]) -> usize
    requires { HeaderRanges table.now }
    ensures { result ≡ records_at (shape_of table.now).capacities }
{
    HEADER_WORDS + table[0] as usize * till_words(table)
}

fn within(low: u32, high: u32, n: u32) -> bool
    ensures { result ≡ is_within low high n }
{
    low <= n && n <= high
}

fn is_block_size(bytes: usize) -> bool
    ensures { result ≡ is_in bytes (64 ∷ 128 ∷ 256 ∷ 512 ∷ []) }
{
    matches!(bytes, 64 | 128 | 256 | 512)
}

fn is_segment_size(blocks: usize) -> bool
    ensures { result ≡ is_in blocks (4 ∷ 8 ∷ 16 ∷ []) }
{
    matches!(blocks, 4 | 8 | 16)
}

fn are_measures(m: Measures) -> bool
    ensures { result ≡ are_measures (measures_of m) }
{
    is_block_size(m.bytes) && is_segment_size(m.blocks) && m.percent <= 100
}

// Whether an image may have so many blocks of so many bytes: at most 65,536 bytes, which takes no division.
fn blocks_within(bytes: usize, blocks: u32) -> bool
    requires { (0 < bytes) × (bytes ≤ 512) }
    ensures { result ≡ is_within 1 (65536 / bytes) blocks }
{
    1 <= blocks && blocks as usize * bytes <= 65536
}

// Whether all are in range, of measures that are.
fn room_in_range(c: Capacities) -> bool
    requires { are_measures (measures_of c.measures) ≡ true }
    ensures { result ≡ in_range (shape c) }
{
    within(1, 16, c.tills)
        && within(1, 64, c.versions)
        && blocks_within(c.measures.bytes, c.blocks)
        && within(1, 4096, c.records)
        && within(1, 32768, c.cells)
}

pub fn in_range(c: Capacities) -> bool
    ensures { result ≡ in_range (shape c) }
{
    are_measures(c.measures) && room_in_range(c)
}

fn table_words(c: Capacities) -> usize
    requires { Ranges (shape c) }
    ensures { (result ≡ table_words (shape c)) × (result < 4294967296) }
{
    let m = c.measures;
    let record = numbers::row_words(m.blocks);
    let slot = 3 + c.blocks as usize;
    let till = 4 + c.versions as usize * slot;
    HEADER_WORDS + c.tills as usize * till + c.records as usize * record
}

pub fn table_length(c: Capacities) -> Result<u32, Refusal>
    ensures { length_result result ≡ table_length_of (shape c) }
{
    if !in_range(c) {
        return Err(Refusal::Capacity);
    }
    Ok(table_words(c) as u32)
}

// Whether the buffers have the lengths needed.
pub fn lengths_fit(pool: &[u8], table: &[u32], c: Capacities) -> bool
    requires { in_range (shape c) ≡ true }
    ensures { result ≡ (eqb (length pool.now) (pool_bytes (shape c)) && eqb (length table.now) (table_words (shape c))) }
{
    pool.len() == c.cells as usize * c.measures.bytes && table.len() == table_words(c)
}

fn write_room(table: &mut [u32], c: Capacities)
    requires { 8 ≤ length table.old }
    ensures { table.new ≡ set (set (set (set (set table.old 0 c.tills) 1 c.versions) 2 c.blocks) 3 c.records) 4 c.cells }
{
    table[0] = c.tills;
    table[1] = c.versions;
    table[2] = c.blocks;
    table[3] = c.records;
    table[4] = c.cells;
}

fn write_measures(table: &mut [u32], bytes: u32, blocks: u32, percent: u32)
    requires { 8 ≤ length table.old }
    ensures { table.new ≡ set (set (set table.old 5 bytes) 6 blocks) 7 percent }
{
    table[5] = bytes;
    table[6] = blocks;
    table[7] = percent;
}

fn write_empty(pool: &mut [u8], table: &mut [u32], c: Capacities)
    requires { (length pool.old ≡ pool_bytes (shape c)) × (length table.old ≡ table_words (shape c)) × Ranges (shape c) }
    ensures bytes { pool.new ≡ state_to_bytes (empty_state (shape c)) }
    ensures words { table.new ≡ state_to_words (shape c) (empty_state (shape c)) }
{
    let m = c.measures;
    let bytes = m.word(m.bytes as u32);
    let positions = m.word(m.blocks as u32);
    let percent = m.word(m.percent);
    pool.fill(0);
    table.fill(0);
    write_room(table, c);
    write_measures(table, bytes, positions, percent);
}

pub fn lay_out(pool: &mut [u8], table: &mut [u32], c: Capacities) -> Result<(), Refusal>
    ensures { layout_answer (refusal_of result) pool.new table.new ≡ layout_of (shape c) pool.old table.old }
{
    if !in_range(c) {
        return Err(Refusal::Capacity);
    }
    if !lengths_fit(pool, table, c) {
        return Err(Refusal::Lengths);
    }
    write_empty(pool, table, c);
    Ok(())
}
