// Placings undone, the last first.
#![tactic(auto)]

ghost use Rattle.std.specs.Prelude.{◌≡◌, ℕ, ◌+◌, ◌*◌, ◌≤◌, ◌<◌, length, get_or, ltb};
ghost use Rattle.std.specs.List.{list_all};
ghost use Rattle.model.specs.Measures.{record_words};
ghost use Rattle.model.specs.State.{Segment};
ghost use Rattle.model.specs.Records.{cells_of};
ghost use Rattle.model.specs.Sweep.{clear_cells};
ghost use Rattle.model.specs.Table.{record_to_words, records_in, cells_in, storage_in};
ghost use Rattle.numbers.specs.Measures.{measures_of};
ghost use Rattle.storage.specs.Stored.{Stored, Encodes};
ghost use Rattle.place_words.specs.Words.{cell_if};
ghost use Rattle.place_undo.specs.Undo.{undo_record, undo_upto};

use numbers::{Cell, Measures, RecordNumber};

// Whether no word is above 1.
fn words_low(words: &[u32]) -> bool
    ensures { result ≡ list_all (λ w. ltb w 2) words.now }
{
    words.iter().all(|&word| word < 2)
}

// A cell is cleared, where the bit is set.
fn clear_if(bit: u32, cell: Cell, pool: &mut [u8], bytes: usize)
    requires { (bit < 2) × (cell.0 * bytes + bytes ≤ length pool.old) × (0 < bytes) × (bytes ≤ 512) }
    ensures { cells_in bytes pool.new ≡ clear_cells bytes (cells_in bytes pool.old) (cell_if bit cell.0) }
{
    if bit == 0 {
        return;
    }
    blocks::clear_cell(pool, cell, bytes);
}

// The cells that a record of n positions names are cleared.
fn clear_cells(row: &[u32], pool: &mut [u8], bytes: usize, n: usize)
    requires { (length row.now ≡ record_words n) × ((i : ℕ) → i < n → get_or row.now (3 + i) 0 * bytes + bytes ≤ length pool.old) × (0 < bytes) × (bytes ≤ 512) × (n ≤ 16) }
    ensures { (seg : Segment) → length seg ≡ n → row.now ≡ record_to_words seg → cells_in bytes pool.new ≡ clear_cells bytes (cells_in bytes pool.old) (cells_of seg) }
{
    let mut m = row[0];
    for i in 0..n {
        let cell = row[3 + i];
        clear_if(m % 2, Cell(cell), pool, bytes);
        m /= 2;
    }
}

// A placing into a record is undone.
fn undo_record(pool: &mut [u8], records: &mut [u32], k: RecordNumber, m: Measures)
    requires { Stored (measures_of m) pool.old records.old × (k.0 < length (records_in m.blocks records.old)) }
    ensures { Encodes (measures_of m) pool.new records.new (undo_record (measures_of m) (storage_in (measures_of m) pool.old records.old) k.0) }
{
    let start = k.word(m.blocks);
    let end = start + numbers::row_words(m.blocks);
    let counts = start + (3 + m.blocks);
    if words_low(&records[counts..end]) {
        clear_cells(&records[start..end], pool, m.bytes, m.blocks);
        records[start..end].fill(0);
        return;
    }
    place_words::lower_row(&mut records[start..end], m.blocks);
}

// The same for any number: one past the last record is that of a segment that needed none.
fn undo_placing(pool: &mut [u8], records: &mut [u32], k: RecordNumber, m: Measures)
    requires { Stored (measures_of m) pool.old records.old }
    ensures { Encodes (measures_of m) pool.new records.new (undo_record (measures_of m) (storage_in (measures_of m) pool.old records.old) k.0) }
{
    let n = k.0;
    if numbers::rows(records.len(), m.blocks) <= n as usize {
        return;
    }
    undo_record(pool, records, k, m);
}

// The first `count` placings are undone.
pub fn undo_all(pool: &mut [u8], records: &mut [u32], placed: &[u32], count: usize, m: Measures)
    requires { Stored (measures_of m) pool.old records.old × (count ≤ length placed.now) }
    ensures { Encodes (measures_of m) pool.new records.new (undo_upto (measures_of m) placed.now count (storage_in (measures_of m) pool.old records.old)) }
{
    for j in (0..count).rev() {
        undo_placing(pool, records, RecordNumber(placed[j]), m);
    }
}
