// The search for a free record, how many records are in use, and which cells are free. Records have n positions each.
#![tactic(auto)]

ghost use Rattle.std.specs.Prelude.{◌≡◌, ℕ, ◌+◌, ◌*◌, ◌≤◌, ◌<◌, length, get_or};
ghost use Rattle.lists.specs.Lists.{first_from};
ghost use Rattle.model.specs.Measures.{record_words};
ghost use Rattle.model.specs.State.{Segment};
ghost use Rattle.model.specs.Records.{is_free, cell_of, cells_of, named_cells};
ghost use Rattle.model.specs.Table.{record_to_words, records_in};
ghost use Rattle.storage.specs.Stored.{EncodesRecords, position_in};
ghost use Rattle.place_words.specs.Words.{cell_if};
ghost use Rattle.place_free.specs.Found.{found};
ghost use Rattle.place_free.specs.Free.{without_cells, RestFree};

use numbers::{Cell, RecordNumber};

// Whether a record is free.
fn row_free(row: &[u32]) -> bool
    requires { 3 ≤ length row.now }
    ensures { (seg : Segment) → row.now ≡ record_to_words seg → result ≡ is_free seg }
{
    row[0] == 0 && row[1] == 0 && row[2] == 0
}

// The lowest free record.
pub fn free_record(records: &[u32], n: usize) -> Option<RecordNumber>
    requires { (n ≤ 16) × EncodesRecords n records.now (records_in n records.now) × (length records.now ≤ 4096 * record_words n) }
    ensures { found result ≡ first_from is_free 0 (records_in n records.now) }
{
    for (k, row) in records.chunks_exact(numbers::row_words(n)).enumerate() {
        if row_free(row) {
            return Some(RecordNumber(k as u32));
        }
    }
    None
}

// All records from this number on are free: it is the highest one in use plus 1.
pub fn used_records(records: &[u32], n: usize) -> usize
    requires { (n ≤ 16) × EncodesRecords n records.now (records_in n records.now) × (length records.now ≤ 4096 * record_words n) }
    ensures { (result ≤ length (records_in n records.now)) × RestFree result (records_in n records.now) }
{
    let width = numbers::row_words(n);
    for last in (0..numbers::rows(records.len(), n)).rev() {
        let start = RecordNumber(last as u32).word(n);
        let end = start + width;
        if !row_free(&records[start..end]) {
            return last + 1;
        }
    }
    0
}

// A cell is taken, where the bit is set.
fn take_if(bit: u32, cell: Cell, free: &mut [bool])
    requires { (bit < 2) × (cell.0 < length free.old) }
    ensures { free.new ≡ without_cells (cell_if bit cell.0) free.old }
{
    if bit == 1 {
        free[cell.0 as usize] = false;
    }
}

// The cells that a record names are taken. One that holds no position names none.
pub fn take_row(row: &[u32], free: &mut [bool], n: usize)
    requires { (n ≤ 16) × (length row.now ≡ record_words n) × ((i : ℕ) → i < n → get_or row.now (3 + i) 0 < length free.old) }
    ensures { (seg : Segment) → length seg ≡ n → row.now ≡ record_to_words seg → free.new ≡ without_cells (cells_of seg) free.old }
{
    let mut m = row[0];
    if m == 0 {
        return;
    }
    for i in 0..n {
        take_if(m % 2, Cell(row[3 + i]), free);
        m /= 2;
    }
}

// The cells that the records name are taken.
pub fn take_all(records: &[u32], free: &mut [bool], n: usize)
    requires n_bound { (n ≤ 16) × EncodesRecords n records.now (records_in n records.now) × (length records.now ≤ 4096 * record_words n) }
    requires by_index { (k i : ℕ) → cell_of (position_in (records_in n records.now) k i) < length free.old }
    ensures { free.new ≡ without_cells (named_cells (records_in n records.now)) free.old }
{
    for row in records.chunks_exact(numbers::row_words(n)) {
        take_row(row, free, n);
    }
}
