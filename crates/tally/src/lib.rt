// The tally: occupied cells, records in use and the sum of all counts.
#![tactic(auto)]

ghost use Rattle.std.specs.Prelude.{◌≡◌, ◌≤◌, length};
ghost use Rattle.model.specs.Records.{named_cells};
ghost use Rattle.model.specs.Table.{segment_in, records_in};
ghost use Rattle.model.specs.Calls.{tally_of};
ghost use Rattle.laws.specs.Stores.{Sound};
ghost use Rattle.tally.specs.Answers.{sum, in_use, TallyRow, TallyOfRecord, TallyRows, tally_of_records, tally_result};

// What a tally counts.
#[derive(Clone, Copy, Debug, PartialEq, Eq)]
pub struct Tallied {
    pub cells: u32,
    pub records: u32,
    pub counts: u32,
}

fn add_all(words: &[u32]) -> u32
    requires { sum words.now ≤ 1048576 }
    ensures { result ≡ sum words.now }
{
    let mut n: u32 = 0;
    for &word in words {
        n += word;
    }
    n
}

// 1 unless all three masks are 0.
fn in_use(held: u32, removed: u32, blank: u32) -> u32
    ensures { result ≡ in_use held removed blank }
{
    u32::from(held != 0 || removed != 0 || blank != 0)
}

// One record, of n positions.
fn tally_row(row: &[u32], n: usize) -> Tallied
    requires { (n ≤ 16) × TallyRow n row.now }
    ensures { TallyOfRecord (segment_in n row.now) result }
{
    let records = in_use(row[0], row[1], row[2]);
    let from = 3 + n;
    let counts = add_all(&row[from..]);
    Tallied {
        cells: u32::count_ones(row[0]),
        records,
        counts,
    }
}

// All records.
fn tally_rows(words: &[u32], n: usize) -> Tallied
    requires { (n ≤ 16) × TallyRows n words.now }
    ensures { tally_result (Ok result) ≡ tally_of_records (records_in n words.now) }
{
    let width = numbers::row_words(n);
    let mut cells: u32 = 0;
    let mut records: u32 = 0;
    let mut counts: u32 = 0;
    for row in words.chunks_exact(width) {
        let one = tally_row(row, n);
        cells += one.cells;
        records += one.records;
        counts += one.counts;
    }
    Tallied {
        cells,
        records,
        counts,
    }
}

pub fn tally_store(pool: &[u8], table: &[u32]) -> Tallied
    requires { Sound pool.now table.now }
    ensures { tally_result (Ok result) ≡ tally_of pool.now table.now }
{
    let m = layout::measures_in(table);
    let at = layout::records_at(table);
    tally_rows(&table[at..], m.blocks)
}

// The cells alone: one pass over the records' masks of held positions.
fn cells_in(words: &[u32], n: usize) -> u32
    requires { (n ≤ 16) × TallyRows n words.now }
    ensures { (result ≡ length (named_cells (records_in n words.now))) × (result ≤ 65536) }
{
    let width = numbers::row_words(n);
    let mut cells: u32 = 0;
    for row in words.chunks_exact(width) {
        cells += u32::count_ones(row[0]);
    }
    cells
}

pub fn occupied_cells(pool: &[u8], table: &[u32]) -> u32
    requires { Sound pool.now table.now }
    ensures { (result ≡ (tally_of pool.now table.now).cells) × (result ≤ 65536) }
{
    let m = layout::measures_in(table);
    let at = layout::records_at(table);
    cells_in(&table[at..], m.blocks)
}
